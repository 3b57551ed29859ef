// Renaming a stored book, for programs in other languages.
ghost use Rattle.std.specs.Prelude.{◌≡◌, length};
ghost use Rattle.model.specs.Service.{ones, rename_service};
ghost use Rattle.telling.specs.Told.{CountTold};

use telling::counts::tell_length;

// Writes a book with new names in front of the text buffer: true and its length in bytes, or false and the refusal, which leaves the buffer as it is.
// What does not apply is 0. The working memory ends all ones.
#[unsafe(no_mangle)]
pub extern "C" fn hifmuneth_rename_book(
    book: &[u8],
    out: &mut [u8],
    work: &mut [u32],
    size: &mut usize,
    number: &mut u32,
    text: &mut u32,
    line: &mut u32,
) -> bool
    ensures answer { CountTold (rename_service (length work.old) out.old book.now).answer result size.new
        number.new text.new line.new }
    ensures written { out.new ≡ (rename_service (length work.old) out.old book.now).text }
    ensures cleared { work.new ≡ ones (length work.old) }
{
    let written = rename_book::rename_book(book, out, work);
    tell_length(written, size, number, text, line)
}
