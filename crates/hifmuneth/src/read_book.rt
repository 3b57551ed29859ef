// Reading a book, for programs in other languages.
ghost use Rattle.std.specs.Prelude.{◌≡◌, length};
ghost use Rattle.model.specs.Service.{ones, book_service};
ghost use Rattle.telling.specs.Told.{BookTold};

use telling::counts::tell_book;

// Reads a book: true and its counts, or false and the refusal. What does not apply is 0. The working memory ends all ones.
#[unsafe(no_mangle)]
pub extern "C" fn hifmuneth_read_book(
    book: &[u8],
    work: &mut [u32],
    nodes: &mut usize,
    relationships: &mut usize,
    entries: &mut usize,
    number: &mut u32,
    text: &mut u32,
    line: &mut u32,
) -> bool
    ensures answer { BookTold (book_service (length work.old) book.now).answer result nodes.new
        relationships.new entries.new number.new text.new line.new }
    ensures cleared { work.new ≡ ones (length work.old) }
{
    let read = service::read_book(book, work);
    tell_book(read, nodes, relationships, entries, number, text, line)
}
