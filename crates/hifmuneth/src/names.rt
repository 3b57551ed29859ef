// The names of a book's nodes, for programs in other languages.
ghost use Rattle.std.specs.Prelude.{◌≡◌, length};
ghost use Rattle.model.specs.Service.{ones, book_service};
ghost use Rattle.node_names.specs.Names.{names_left};
ghost use Rattle.telling.specs.Told.{NamesTold};

use node_names::ALL_NAME_BYTES;
use telling::counts::tell_names;

// Gives the names of a book's nodes, 25 bytes for each: the name, then zeros. True and the number of nodes, or false and the refusal. What does
// not apply is 0. The working memory ends all ones.
#[unsafe(no_mangle)]
pub extern "C" fn hifmuneth_node_names(
    book: &[u8],
    work: &mut [u32],
    count: &mut usize,
    names: &mut [u8; ALL_NAME_BYTES],
    number: &mut u32,
    text: &mut u32,
    line: &mut u32,
) -> bool
    ensures answer { NamesTold (book_service (length work.old) book.now).answer result count.new number.new
        text.new line.new }
    ensures names { names.new ≡ names_left (length work.old) book.now }
    ensures cleared { work.new ≡ ones (length work.old) }
{
    let read = node_names::node_names(book, names, work);
    tell_names(read, count, number, text, line)
}
