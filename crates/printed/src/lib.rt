// What the list program prints: the list of the rows of four texts, or the refusal, in front of a lent buffer.
#![tactic(auto)]

ghost use Rattle.std.specs.Prelude.{◌≡◌};
ghost use Rattle.model.specs.Refusal.{accepted};
ghost use Rattle.model.specs.ReadBook.{read_book};
ghost use Rattle.model.specs.Printed.{printed};
ghost use Rattle.book_tables.specs.View.{book_at};
ghost use Rattle.book_tables.specs.Fits.{Fits};
ghost use Rattle.list_lines.specs.Printing.{Prints};

use book_tables::BookCounts;
use model::limits::WORK_WORDS;

// "The program lends 16,384 row words."
const ROW_WORDS: usize = 16384;

// No list is longer: 13 bytes of header, and for each row word a name of at most 31 bytes, the space before it and the six bytes around its row.
pub const LIST_BYTES: usize = 622605;

// Puts what is printed for four texts in front of a buffer, as far as the buffer reaches, and answers how long it is.
pub fn list_text(book: &[u8], rules: &[u8], query: &[u8], request: &[u8], out: &mut [u8]) -> usize
    ensures { Prints (printed book.now rules.now query.now request.now) out.old
        out.new result }
{
    let mut words = [0u32; WORK_WORDS];
    match book::load::load(book, &mut words) {
        Err(fault) => {
            return list_lines::put_refusal(fault, out, 0);
        }
        Ok(counts) => {
            return from_book(book, &words, counts, rules, query, request, out);
        }
    }
}

// Puts what is printed where the book is accepted; its words say how the nodes are named.
fn from_book(
    book: &[u8],
    words: &[u32],
    counts: BookCounts,
    rules: &[u8],
    query: &[u8],
    request: &[u8],
    out: &mut [u8],
) -> usize
    requires { Fits book.now words.now counts × (read_book book.now ≡ accepted (book_at book.now words.now counts)) }
    ensures { Prints (printed book.now rules.now query.now request.now) out.old
        out.new result }
{
    let mut rows = [0u32; ROW_WORDS];
    let mut work = [0u32; WORK_WORDS];
    match listing::list(book, rules, query, request, &mut rows, &mut work) {
        Err(refusal) => {
            return list_lines::put_refusal(refusal, out, 0);
        }
        Ok(size) => {
            return list_lines::put_list(book, words, counts, &rows, size.rows, size.width, out, 0);
        }
    }
}
