// Reading a query: whether it is accepted, or its lowest refusal. The pattern of one that is accepted is built where it is used.
ghost use Rattle.std.specs.Prelude.{◌≡◌};
ghost use Rattle.book_tables.specs.View.{book_at};
ghost use Rattle.book_tables.specs.Fits.{Fits};
ghost use Rattle.query.specs.QueryReads.{QueryReads, TextAsked, refused_with};

use book_tables::BookCounts;
use model::Refusal;
use model::limits::MAX_QUERY_BYTES;
use model::refusal_numbers::{NOT_ALLOWED, QUERY, QUERY_LINE, TOO_LONG};
use query_faults::faulty;
use text::{BytesFault, lines};

// A refusal of the query.
fn refused(number: u32, line: u32) -> Result<(), Refusal>
    ensures { result ≡ refused_with number line }
{
    Err(Refusal {
        number,
        text: QUERY,
        line,
    })
}

// Reads a text of allowed bytes that is short enough.
fn read_allowed(book: &[u8], words: &[u32], counts: BookCounts, s: &[u8]) -> Result<(), Refusal>
    requires { TextAsked book.now words.now counts s.now }
    ensures { QueryReads (book_at book.now words.now counts) s.now result }
{
    let fault = faulty::fault_of(book, words, counts, s);
    if fault == 0 {
        return Ok(());
    }
    refused(fault, QUERY_LINE)
}

// Reads a query against a loaded book.
pub fn read(book: &[u8], words: &[u32], counts: BookCounts, s: &[u8]) -> Result<(), Refusal>
    requires { Fits book.now words.now counts }
    ensures { QueryReads (book_at book.now words.now counts) s.now result }
{
    match lines::bytes_read(s, MAX_QUERY_BYTES) {
        Err(BytesFault::TooLong) => refused(TOO_LONG, 0),
        Err(BytesFault::BadLine(_)) => refused(NOT_ALLOWED, QUERY_LINE),
        Ok(()) => read_allowed(book, words, counts, s),
    }
}
