// The lowest fault of a query text.
ghost use Rattle.std.specs.Prelude.{◌≡◌, ◌≤◌};
ghost use Rattle.book_tables.specs.View.{book_at};
ghost use Rattle.book_tables.specs.Fits.{Fits};
ghost use Rattle.query_faults.specs.TextFault.{text_fault};

use crate::walk;
use book_tables::BookCounts;

// A text of 512 bytes has fewer than 64 names of a kind that can count, one of 16,384 bytes fewer than 2,048: Match(v) has 8 bytes.
pub const SHORT: usize = 512;

// The words of a table: 256 chains, and two words for each name.
pub const SHORT_TABLE: usize = 384;

pub const LONG_TABLE: usize = 4352;

// The number of the lowest fault of a text, 3 to 8; 0 if it has none.
pub fn fault_of(book: &[u8], words: &[u32], counts: BookCounts, s: &[u8]) -> u32
    requires { Fits book.now words.now counts }
    ensures { result ≡ text_fault (book_at book.now words.now counts) s.now }
{
    if s.len() <= SHORT {
        fault_in::<SHORT_TABLE>(book, words, counts, s)
    } else {
        fault_in::<LONG_TABLE>(book, words, counts, s)
    }
}

// The same with three tables of N words, which are soon cleared where they are small.
fn fault_in<const N: usize>(book: &[u8], words: &[u32], counts: BookCounts, s: &[u8]) -> u32
    requires { Fits book.now words.now counts × 256 ≤ N × N ≤ 4352 }
    ensures { result ≡ text_fault (book_at book.now words.now counts) s.now }
{
    let mut vertices = [0; N];
    let mut edges = [0; N];
    let mut returned = [0; N];
    walk::fault_with(
        book,
        words,
        counts,
        s,
        &mut vertices,
        &mut edges,
        &mut returned,
    )
}
