// A whole book, line by line, into the tables.
ghost use Rattle.std.specs.Prelude.{◌≤◌, ◌<◌, length};
ghost use Rattle.book_tables.specs.Layout.{book_words};
ghost use Rattle.model.specs.Lines.{read_lines, lines_of};
ghost use Rattle.model.specs.Book.{empty_book};
ghost use Rattle.model.specs.ReadBook.{book_step, read_book_by, read_book};
ghost use Rattle.text.specs.Lines.{line_at};
ghost use Rattle.book_tables.specs.Alike.{alike};
ghost use Rattle.book_tables.specs.View.{book_at};
ghost use Rattle.book_steps.specs.Steps.{Stepped};
ghost use Rattle.book.specs.Loaded.{LineAsked, Loaded};

use book_tables::{BookCounts, NameRule, no_counts};
use model::Refusal;
use model::limits::MAX_BOOK_BYTES;
use model::refusal_numbers::{BOOK, BROKEN, NOT_ALLOWED, TOO_LONG};
use text::BytesFault;

// Reads a book into the tables, and answers their counts, by names of nodes that are equal but for case; on a refusal they are all ones.
pub fn load(text: &[u8], words: &mut [u32]) -> Result<BookCounts, Refusal>
    requires { book_words ≤ length words.old }
    ensures { Loaded text.now words.new result (read_book text.now) }
{
    load_by(text, words, NameRule::AnyCase)
}

// The same by a rule for the names of nodes: which of them are given a second time.
pub fn load_by(text: &[u8], words: &mut [u32], rule: NameRule) -> Result<BookCounts, Refusal>
    requires { book_words ≤ length words.old }
    ensures { Loaded text.now words.new result (read_book_by (alike rule) text.now) }
{
    match text::lines::bytes_read(text, MAX_BOOK_BYTES) {
        Err(BytesFault::TooLong) => {
            fill::fill(words, 0);
            return Err(Refusal {
                number: TOO_LONG,
                text: BOOK,
                line: 0,
            });
        }
        Err(BytesFault::BadLine(line)) => {
            fill::fill(words, 0);
            return Err(Refusal {
                number: NOT_ALLOWED,
                text: BOOK,
                line: line as u32,
            });
        }
        Ok(()) => {
            return load_lines(text, words, rule);
        }
    }
}

// Reads the lines of a book into the tables; on a refusal they are all ones.
fn load_lines(text: &[u8], words: &mut [u32], rule: NameRule) -> Result<BookCounts, Refusal>
    requires { (length text.now ≤ 65536) × (book_words ≤ length words.old) }
    ensures { Loaded text.now words.new result (read_lines 1 (book_step (alike rule)) 1 empty_book (lines_of text.now)) }
{
    book_tables::stores::clear_chains(words);
    let mut at = 0;
    let mut line = 1;
    let mut counts = no_counts();
    while at < text.len() {
        let to = text::lines::line_end(text, at);
        match line_step(text, at, to, words, counts, rule) {
            Err(number) => {
                fill::fill(words, 0);
                return Err(Refusal {
                    number,
                    text: BOOK,
                    line,
                });
            }
            Ok(more) => {
                counts = more;
            }
        }
        at = to + 1;
        line += 1;
    }
    Ok(counts)
}

// Reads one line from its start to its line feed; without a line feed it breaks the grammar.
fn line_step(
    text: &[u8],
    from: usize,
    to: usize,
    words: &mut [u32],
    counts: BookCounts,
    rule: NameRule,
) -> Result<BookCounts, u32>
    requires { LineAsked text.now words.old counts from to }
    ensures { Stepped text.now words.new result
        (book_step (alike rule) (book_at text.now words.old counts) (line_at text.now from to)) }
{
    if text.len() <= to {
        return Err(BROKEN);
    }
    book_lines::forms::read_line(text, &text[from..to], from, words, counts, rule)
}
