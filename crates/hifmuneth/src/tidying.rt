// Writing a book tidily, for programs in other languages.
ghost use Rattle.std.specs.Prelude.{◌≡◌, length};
ghost use Rattle.model.specs.Service.{ones, tidy_service};
ghost use Rattle.telling.specs.Told.{CountTold};

use telling::counts::tell_length;

// Writes the tidy book in front of the text buffer: true and its length in bytes, or false and the refusal, which leaves the buffer as it is.
// What does not apply is 0. The working memory ends all ones.
#[unsafe(no_mangle)]
pub extern "C" fn hifmuneth_tidy_book(
    book: &[u8],
    out: &mut [u8],
    work: &mut [u32],
    size: &mut usize,
    number: &mut u32,
    text: &mut u32,
    line: &mut u32,
) -> bool
    ensures answer { CountTold (tidy_service (length work.old) out.old book.now).answer result size.new
        number.new text.new line.new }
    ensures written { out.new ≡ (tidy_service (length work.old) out.old book.now).text }
    ensures cleared { work.new ≡ ones (length work.old) }
{
    let written = tidy_book::tidy_book(book, out, work);
    tell_length(written, size, number, text, line)
}
