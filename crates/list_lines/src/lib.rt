// The text of a list: the header and the rows, or a refusal, put into a lent buffer.
#![tactic(auto)]

ghost use Rattle.std.specs.Prelude.{◌++◌, ◌*◌, ◌≤◌, length};
ghost use Rattle.model.specs.Bytes.{bytes_of};
ghost use Rattle.model.specs.Book.{node_names};
ghost use Rattle.model.specs.Lists.{joined};
ghost use Rattle.model.specs.Printed.{row_text, rows_text, refusal_text};
ghost use Rattle.model.specs.Answers.{refusal_of};
ghost use Rattle.book_tables.specs.View.{book_at};
ghost use Rattle.book_tables.specs.Fits.{Fits};
ghost use Rattle.rows.specs.Buffer.{rows_in};
ghost use Rattle.putting.specs.Putting.{Puts};
ghost use Rattle.list_lines.specs.Printing.{header_text, name_in, names_text};

use book_lookup::names;
use book_tables::BookCounts;
use model::Refusal;
use putting::{bytes, values};

// No number that is printed has more decimal digits: a line, a count of rows, a refusal's number.
const COUNT_DIGITS: usize = 5;

// Puts so many rows of so many nodes each, which stand one after another in the row words: the header, then a line for each row.
pub fn put_list(
    book: &[u8],
    words: &[u32],
    counts: BookCounts,
    rows: &[u32],
    count: usize,
    width: usize,
    out: &mut [u8],
    at: usize,
) -> usize
    requires { Fits book.now words.now counts × (count * width ≤ length rows.now) }
    ensures { Puts out.old at
        (rows_text (node_names (book_at book.now words.now counts)) (rows_in width count rows.now)) out.new result }
{
    let at = put_header(count, out, at);
    put_rows(book, words, counts, rows, count, width, out, at)
}

// Puts the rows, a line each.
fn put_rows(
    book: &[u8],
    words: &[u32],
    counts: BookCounts,
    rows: &[u32],
    count: usize,
    width: usize,
    out: &mut [u8],
    at: usize,
) -> usize
    requires { Fits book.now words.now counts × (count * width ≤ length rows.now) }
    ensures { Puts out.old at
        (joined (row_text (node_names (book_at book.now words.now counts))) (rows_in width count rows.now)) out.new result }
{
    let mut next = at;
    let mut from = 0;
    for i in 0..count {
        let to = from + width;
        next = put_row(book, words, counts, &rows[from..to], out, next);
        from = to;
    }
    next
}

// Puts the header: the row count.
pub fn put_header(count: usize, out: &mut [u8], at: usize) -> usize
    ensures { Puts out.old at (header_text count) out.new result }
{
    let at = bytes::put_bytes(b"(rows ", out, at);
    let at = values::put_digits(COUNT_DIGITS, count as u64, out, at);
    bytes::put_bytes(b")\n", out, at)
}

// Puts a refusal with its three numbers.
pub fn put_refusal(refusal: Refusal, out: &mut [u8], at: usize) -> usize
    ensures { Puts out.old at (refusal_text (refusal_of refusal)) out.new result }
{
    let at = bytes::put_bytes(b"(refused ", out, at);
    let at = values::put_digits(COUNT_DIGITS, refusal.number as u64, out, at);
    let at = bytes::put_bytes(b" text ", out, at);
    let at = values::put_digits(COUNT_DIGITS, refusal.text as u64, out, at);
    let at = bytes::put_bytes(b" line ", out, at);
    let at = values::put_digits(COUNT_DIGITS, refusal.line as u64, out, at);
    bytes::put_bytes(b")\n", out, at)
}

// Puts a row: the names of its nodes.
pub fn put_row(
    book: &[u8],
    words: &[u32],
    counts: BookCounts,
    row: &[u32],
    out: &mut [u8],
    at: usize,
) -> usize
    requires { Fits book.now words.now counts }
    ensures { Puts out.old at (row_text (node_names (book_at book.now words.now counts)) row.now)
        out.new result }
{
    let at = bytes::put_bytes(b"(row", out, at);
    let at = put_names(book, words, counts, row, out, at);
    bytes::put_bytes(b")\n", out, at)
}

// Puts the names of a row's nodes, each behind a space.
fn put_names(
    book: &[u8],
    words: &[u32],
    counts: BookCounts,
    row: &[u32],
    out: &mut [u8],
    at: usize,
) -> usize
    requires { Fits book.now words.now counts }
    ensures { Puts out.old at
        (names_text (node_names (book_at book.now words.now counts)) row.now (length row.now)) out.new result }
{
    let mut next = at;
    for node in row {
        next = put_node(book, words, counts, *node as usize, out, next);
    }
    next
}

// Puts a space and the name of a node; a number that is no node has no name.
fn put_node(
    book: &[u8],
    words: &[u32],
    counts: BookCounts,
    node: usize,
    out: &mut [u8],
    at: usize,
) -> usize
    requires { Fits book.now words.now counts }
    ensures { Puts out.old at (bytes_of " " ++ name_in (node_names (book_at book.now words.now counts)) node)
        out.new result }
{
    let at = bytes::put_bytes(b" ", out, at);
    if node < counts.nodes {
        return bytes::put_bytes(names::node_name(book, words, node), out, at);
    }
    at
}
