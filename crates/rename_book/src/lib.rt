// The renaming of a stored book: of two node names that are equal but for case the later one gets `_b` at its end, wherever it names a node.
#![tactic(auto)]

ghost use Rattle.std.specs.Prelude.{◌≡◌, length};
ghost use Rattle.model.specs.Renaming.{renamed_book};
ghost use Rattle.model.specs.Service.{ones, rename_service};
ghost use Rattle.model.specs.Answers.{writer_answer};
ghost use Rattle.later_names.specs.Ask.{ReadExactly};
ghost use Rattle.written_book.specs.Leaves.{Leaves};

use book_tables::{BookCounts, NameRule};
use model::Refusal;
use model::refusal_numbers::{BOOK, NO_LINE, NO_ROOM, SECOND_TIME};

// The steps of `tidy_book`, by another rule of names; the two share them as `load_whole`, and each clause names its own service.
// Writes the new book in front of the text buffer and answers its length, or a refusal, which leaves the buffer as it is. The book is read by the very
// names of its nodes. The working memory ends all ones.
pub fn rename_book(book: &[u8], text: &mut [u8], work: &mut [u32]) -> Result<usize, Refusal>
    ensures answer { writer_answer result ≡ (rename_service (length work.old) text.old book.now).answer }
    ensures text { text.new ≡ (rename_service (length work.old) text.old book.now).text }
    ensures cleared { work.new ≡ ones (length work.old) }
{
    match written_book::load_whole(book, work, NameRule::Exact) {
        Err(refusal) => {
            return Err(refusal);
        }
        Ok(counts) => {
            let written = write_renamed(book, work, counts, text);
            fill::fill(work, 0);
            return written;
        }
    }
}

// The book being read: writes it with its new names, unless one of them cannot be had or the buffer is too short.
fn write_renamed(
    book: &[u8],
    words: &[u32],
    counts: BookCounts,
    text: &mut [u8],
) -> Result<usize, Refusal>
    requires { ReadExactly book.now words.now counts }
    ensures { Leaves (renamed_book book.now) text.old text.new result }
{
    match later_names::new_names(book, words, counts) {
        Err(node) => {
            let name = book_lookup::names::node_name(book, words, node);
            return Err(Refusal {
                number: SECOND_TIME,
                text: BOOK,
                line: renamed_text::declared_at(book, name) as u32,
            });
        }
        Ok(size) => {
            if text.len() < size {
                return Err(Refusal {
                    number: NO_ROOM,
                    text: BOOK,
                    line: NO_LINE,
                });
            }
            let marks = later_names::later_marks(book, words, counts);
            renamed_text::put_renamed(book, words, counts, &marks, text);
            return Ok(size);
        }
    }
}
