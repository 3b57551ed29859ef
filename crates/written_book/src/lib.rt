// What the services that write a book have in common, the renaming and the tidy book: how they begin; and what they leave.
#![tactic(auto)]

ghost use Rattle.std.specs.Prelude.{length};
ghost use Rattle.model.specs.ReadBook.{read_book_by};
ghost use Rattle.model.specs.Service.{with_work};
ghost use Rattle.book_tables.specs.Alike.{alike};
ghost use Rattle.book.specs.Loaded.{Loaded};

use book_tables::{BookCounts, NameRule};
use model::Refusal;
use model::limits::WORK_WORDS;
use model::refusal_numbers::{NO_LINE, NO_TEXT, TOO_LITTLE};

// Reads the book into the working memory, if that is whole, by a rule for the names of nodes. After a refusal the memory is all ones.
pub fn load_whole(book: &[u8], work: &mut [u32], rule: NameRule) -> Result<BookCounts, Refusal>
    ensures { Loaded book.now work.new result
        (with_work (length work.old) (read_book_by (alike rule) book.now)) }
{
    if work.len() < WORK_WORDS {
        fill::fill(work, 0);
        return Err(Refusal {
            number: TOO_LITTLE,
            text: NO_TEXT,
            line: NO_LINE,
        });
    }
    book::load::load_by(book, work, rule)
}
