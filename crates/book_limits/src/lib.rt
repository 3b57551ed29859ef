// Tries the limits of a book at their edges: one text within each limit, and one past it.
// `print` and the functions that try something only print, and no contract can say what reached the output; those that put bytes into a text
// are held to what the program prints.
#![tactic(auto)]

use model::limits::{MAX_BOOK_BYTES, MAX_DECLARED, MAX_NODES, MAX_RELATIONSHIPS, WORK_WORDS};
use putting::bytes::{put_byte, put_bytes};
use std::io;
use std::io::Write;

// Room for the longest text tried.
const TEXT_BYTES: usize = 65600;

// Enough nodes for 1,025 relationships, and 64 nodes of 32 entries each.
const ENDS: usize = 33;

const OWNERS: usize = 64;

// Puts four digits.
fn put_digits(text: &mut [u8], at: usize, n: usize) -> usize {
    let thousands = put_byte((n / 1000 % 10) as u8 + b'0', text, at);
    let hundreds = put_byte((n / 100 % 10) as u8 + b'0', text, thousands);
    let tens = put_byte((n / 10 % 10) as u8 + b'0', text, hundreds);
    put_byte((n % 10) as u8 + b'0', text, tens)
}

// Puts a line: a beginning, a number and an end.
fn put_line(text: &mut [u8], at: usize, before: &[u8], n: usize, behind: &[u8]) -> usize {
    let named = put_bytes(before, text, at);
    let numbered = put_digits(text, named, n);
    put_bytes(behind, text, numbered)
}

// Puts as many lines as are asked, numbered from 0.
fn put_lines(text: &mut [u8], at: usize, count: usize, before: &[u8], behind: &[u8]) -> usize {
    let mut next = at;
    for i in 0..count {
        next = put_line(text, next, before, i, behind);
    }
    next
}

// A label, 33 nodes, and as many relationships between them.
fn put_relationships(text: &mut [u8], count: usize) -> usize {
    let labelled = put_bytes(b"(label runs)\n", text, 0);
    let mut next = put_lines(text, labelled, ENDS, b"(node n", b")\n");
    for i in 0..count {
        let from = put_line(text, next, b"(rel runs n", i / ENDS, b" n");
        let to = put_digits(text, from, i % ENDS);
        next = put_bytes(b")\n", text, to);
    }
    next
}

// A node of the 32 attributes.
fn put_owner(text: &mut [u8], at: usize, n: usize) -> usize {
    let named = put_line(text, at, b"(node n", n, b"");
    let listed = put_lines(text, named, MAX_DECLARED, b"(a", b" 1)");
    put_bytes(b")\n", text, listed)
}

// 32 attributes, and 64 nodes that have them all.
fn put_entries(text: &mut [u8]) -> usize {
    let mut next = put_lines(text, 0, MAX_DECLARED, b"(vattr a", b" int)\n");
    for i in 0..OWNERS {
        next = put_owner(text, next, i);
    }
    next
}

// A line of as many bytes, its line feed included.
fn put_long_line(text: &mut [u8], bytes: usize) -> usize {
    let mut next = put_bytes(b"(node a)", text, 0);
    for _ in 9..bytes {
        next = put_byte(b' ', text, next);
    }
    put_byte(b'\n', text, next)
}

// Prints a number behind a space.
fn print(out: &mut impl Write, n: u64) -> io::Result<()> {
    write!(out, " {n}")
}

// Reads the first n bytes of a text and prints what the service answers.
fn try_book(
    out: &mut impl Write,
    name: &[u8],
    text: &[u8],
    n: usize,
    work: &mut [u32],
) -> io::Result<()> {
    out.write_all(name)?;
    if text.len() < n {
        return Ok(());
    }
    match service::read_book(&text[0..n], work) {
        Ok(size) => {
            out.write_all(b": counts")?;
            print(out, size.nodes as u64)?;
            print(out, size.relationships as u64)?;
            print(out, size.entries as u64)?;
        }
        Err(refusal) => {
            out.write_all(b": refused")?;
            print(out, refusal.number as u64)?;
            print(out, refusal.text as u64)?;
            print(out, refusal.line as u64)?;
        }
    }
    out.write_all(b"\n")
}

// As many lines of one form.
fn try_lines(
    out: &mut impl Write,
    name: &[u8],
    count: usize,
    before: &[u8],
    behind: &[u8],
) -> io::Result<()> {
    let mut space = [0u8; TEXT_BYTES];
    let text: &mut [u8] = &mut space;
    let mut work = [0u32; WORK_WORDS];
    let n = put_lines(text, 0, count, before, behind);
    try_book(out, name, text, n, &mut work)
}

// As many relationships.
fn try_relationships(out: &mut impl Write, name: &[u8], count: usize) -> io::Result<()> {
    let mut space = [0u8; TEXT_BYTES];
    let text: &mut [u8] = &mut space;
    let mut work = [0u32; WORK_WORDS];
    let n = put_relationships(text, count);
    try_book(out, name, text, n, &mut work)
}

// 2,048 entries, and what a last line adds.
fn try_entries(out: &mut impl Write, name: &[u8], last: &[u8]) -> io::Result<()> {
    let mut space = [0u8; TEXT_BYTES];
    let text: &mut [u8] = &mut space;
    let mut work = [0u32; WORK_WORDS];
    let all = put_entries(text);
    let n = put_bytes(last, text, all);
    try_book(out, name, text, n, &mut work)
}

// As many bytes.
fn try_bytes(out: &mut impl Write, name: &[u8], bytes: usize) -> io::Result<()> {
    let mut space = [0u8; TEXT_BYTES];
    let text: &mut [u8] = &mut space;
    let mut work = [0u32; WORK_WORDS];
    let n = put_long_line(text, bytes);
    try_book(out, name, text, n, &mut work)
}

// A whole number.
fn try_number(out: &mut impl Write, name: &[u8], digits: &[u8]) -> io::Result<()> {
    let mut space = [0u8; TEXT_BYTES];
    let text: &mut [u8] = &mut space;
    let mut work = [0u32; WORK_WORDS];
    let opened = put_bytes(b"(vattr rate int)\n(node a (rate ", text, 0);
    let numbered = put_bytes(digits, text, opened);
    let n = put_bytes(b"))\n", text, numbered);
    try_book(out, name, text, n, &mut work)
}

// A working memory that is one word short.
fn try_memory(out: &mut impl Write, name: &[u8]) -> io::Result<()> {
    let text = [0u8; TEXT_BYTES];
    let mut work = [0u32; WORK_WORDS - 1];
    try_book(out, name, &text, 0, &mut work)
}

fn try_names(out: &mut impl Write) -> io::Result<()> {
    try_lines(out, b"32 vattr", MAX_DECLARED, b"(vattr a", b" int)\n")?;
    try_lines(out, b"33 vattr", MAX_DECLARED + 1, b"(vattr a", b" int)\n")?;
    try_lines(out, b"32 eattr", MAX_DECLARED, b"(eattr a", b" str)\n")?;
    try_lines(out, b"33 eattr", MAX_DECLARED + 1, b"(eattr a", b" str)\n")?;
    try_lines(out, b"32 label", MAX_DECLARED, b"(label a", b")\n")?;
    try_lines(out, b"33 label", MAX_DECLARED + 1, b"(label a", b")\n")
}

fn try_numbers(out: &mut impl Write) -> io::Result<()> {
    try_number(out, b"9223372036854775807", b"9223372036854775807")?;
    try_number(out, b"9223372036854775808", b"9223372036854775808")?;
    try_number(out, b"-9223372036854775808", b"-9223372036854775808")?;
    try_number(out, b"-9223372036854775809", b"-9223372036854775809")
}

// Tries every limit.
pub fn run(out: &mut impl Write) -> io::Result<()> {
    try_lines(out, b"256 nodes", MAX_NODES, b"(node n", b")\n")?;
    try_lines(out, b"257 nodes", MAX_NODES + 1, b"(node n", b")\n")?;
    try_relationships(out, b"1024 relationships", MAX_RELATIONSHIPS)?;
    try_relationships(out, b"1025 relationships", MAX_RELATIONSHIPS + 1)?;
    try_entries(out, b"2048 entries", b"")?;
    try_entries(out, b"2049 entries", b"(node m (a0000 1))\n")?;
    try_names(out)?;
    try_bytes(out, b"65536 bytes", MAX_BOOK_BYTES)?;
    try_bytes(out, b"65537 bytes", MAX_BOOK_BYTES + 1)?;
    try_numbers(out)?;
    try_memory(out, b"16383 words")
}
