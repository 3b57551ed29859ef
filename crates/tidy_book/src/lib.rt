// The tidy book: a book written anew, its lines by kind, its attributes in the order of their declarations, with one space between items and no other.
#![tactic(auto)]

ghost use Rattle.std.specs.Prelude.{◌≡◌, length};
ghost use Rattle.model.specs.Tidy.{tidy_book};
ghost use Rattle.model.specs.Service.{ones, tidy_service};
ghost use Rattle.model.specs.Answers.{writer_answer};
ghost use Rattle.written_book.specs.Leaves.{Leaves};
ghost use Rattle.tidy_book.specs.Asked.{BookRead};

use book_tables::{BookCounts, NameRule};
use model::Refusal;
use model::limits::MAX_BOOK_BYTES;
use model::refusal_numbers::{BOOK, NO_LINE, NO_ROOM};

// Writes the tidy book in front of the text buffer and answers its length, or a refusal, which leaves the buffer as it is. The working memory ends all ones.
pub fn tidy_book(book: &[u8], text: &mut [u8], work: &mut [u32]) -> Result<usize, Refusal>
    ensures answer { writer_answer result ≡ (tidy_service (length work.old) text.old book.now).answer }
    ensures text { text.new ≡ (tidy_service (length work.old) text.old book.now).text }
    ensures cleared { work.new ≡ ones (length work.old) }
{
    match written_book::load_whole(book, work, NameRule::AnyCase) {
        Err(refusal) => {
            return Err(refusal);
        }
        Ok(counts) => {
            let written = write_tidy(book, work, counts, text);
            fill::fill(work, 0);
            return written;
        }
    }
}

// The book being read: writes it, unless it is too long for the buffer or for a book. Its length is counted first, so that a refusal leaves the buffer.
fn write_tidy(
    book: &[u8],
    words: &[u32],
    counts: BookCounts,
    text: &mut [u8],
) -> Result<usize, Refusal>
    requires { BookRead book.now words.now counts }
    ensures { Leaves (tidy_book book.now) text.old text.new result }
{
    let size = tidy_size::tidy_size(words, counts);
    if putting::too_long(MAX_BOOK_BYTES, text.len(), size) {
        return Err(Refusal {
            number: NO_ROOM,
            text: BOOK,
            line: NO_LINE,
        });
    }
    tidy_text::put_tidy(book, words, counts, text, 0);
    Ok(size)
}
