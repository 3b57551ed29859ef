// The readers and the list on many sets of texts. Each case is a folder with a number; a text that it lacks is the one beside the folders.
// Prints of each case its name, the answers of the book, rules and request readers, what the query writer writes, the list, and the list's answer where no
// row words are lent.
// Of the functions that print, those that print a list and its header say what they give the writer; the others only print.
ghost use Rattle.std.specs.Prelude.{OnOk};
ghost use Rattle.std.specs.Io.KnownBytes.{Appends};
ghost use Rattle.io.specs.Counts.{IsPrefixLen};
ghost use Rattle.model.specs.Printed.{printed};
ghost use Rattle.list_lines.specs.Printing.{header_text};

use model::limits::WORK_WORDS;
use printed::LIST_BYTES;
use program_io::files::{BOOK_ROOM, QUERY_ROOM, REQUEST_ROOM, RULES_ROOM};
use putting::bytes::{put_byte, put_bytes};
use std::io;
use std::io::Write;
use std::rt::Files;

// The cases are counted from 1.
const CASES: usize = 43;

const NAME_BYTES: usize = 256;

// Room for a header, which has at most 13 bytes.
const HEADER_BYTES: usize = 13;

// Room for a path: the folder's number, a slash, a file's name.
const PATH_BYTES: usize = 32;

// Prints every case.
pub fn run(rt: &(impl Files + Eprint), out: &mut impl Write) -> io::Result<()> {
    for i in 1..=CASES {
        print_case(rt, out, i)?;
    }
    Ok(())
}

// Prints a case.
fn print_case(rt: &(impl Files + Eprint), out: &mut impl Write, i: usize) -> io::Result<()> {
    let mut name = [0u8; NAME_BYTES];
    let mut book = [0u8; BOOK_ROOM];
    let mut rules = [0u8; RULES_ROOM];
    let mut query = [0u8; QUERY_ROOM];
    let mut request = [0u8; REQUEST_ROOM];
    let name_length = read_case(rt, i, b"name.txt", &mut name);
    let book_length = read_case(rt, i, b"book.txt", &mut book);
    let rules_length = read_case(rt, i, b"rules.txt", &mut rules);
    let query_length = read_case(rt, i, b"query.txt", &mut query);
    let request_length = read_case(rt, i, b"request.txt", &mut request);
    out.write_all(&name[..name_length])?;
    print_answers(
        out,
        &book[..book_length],
        &rules[..rules_length],
        &query[..query_length],
        &request[..request_length],
    )
}

// Reads a text of a case, or the one beside the folders.
fn read_case(rt: &(impl Files + Eprint), i: usize, file: &[u8], text: &mut [u8]) -> usize
    ensures { IsPrefixLen result text.new }
{
    let mut path = [0u8; PATH_BYTES];
    let at = put_byte(b'0' + (i / 10 % 10) as u8, &mut path, 0);
    let at = put_byte(b'0' + (i % 10) as u8, &mut path, at);
    let at = put_bytes(b"/", &mut path, at);
    let end = put_bytes(file, &mut path, at);
    if end <= PATH_BYTES {
        return program_io::files::read_either(rt, &path[0..end], file, text).length;
    }
    0
}

// Prints the answers on four texts.
fn print_answers(
    out: &mut impl Write,
    book: &[u8],
    rules: &[u8],
    query: &[u8],
    request: &[u8],
) -> io::Result<()> {
    print_answers::print_book(out, book)?;
    print_answers::print_rules(out, book, rules)?;
    print_answers::print_request(out, book, rules, request)?;
    print_answers::print_written(out, book, rules, query)?;
    print_list(out, book, rules, query, request)?;
    out.write_all(b"no row words: ")?;
    print_in_no_words(out, book, rules, query, request)
}

// Prints what the list program prints for four texts.
fn print_list<W: Write>(
    out: &mut W,
    book: &[u8],
    rules: &[u8],
    query: &[u8],
    request: &[u8],
) -> io::Result<()>
    ensures { OnOk result (Appends (W.contents out.old) (W.contents out.new) (printed book.now rules.now query.now request.now)) }
{
    let mut text: [u8; LIST_BYTES] = program_io::room();
    let length = printed::list_text(book, rules, query, request, &mut text);
    program_io::print_front(out, &text, length)
}

// Prints what the list answers where no row words are lent: the row count, or the refusal.
fn print_in_no_words(
    out: &mut impl Write,
    book: &[u8],
    rules: &[u8],
    query: &[u8],
    request: &[u8],
) -> io::Result<()> {
    let mut rows = [0u32; 1];
    let mut work = [0u32; WORK_WORDS];
    match listing::list(book, rules, query, request, &mut rows[0..0], &mut work) {
        Err(refusal) => print_answers::print_refusal(out, refusal),
        Ok(size) => print_header(out, size.rows),
    }
}

// Prints the header of a list.
fn print_header<W: Write>(out: &mut W, count: usize) -> io::Result<()>
    ensures { OnOk result (Appends (W.contents out.old) (W.contents out.new) (header_text count)) }
{
    let mut line = [0u8; HEADER_BYTES];
    let length = list_lines::put_header(count, &mut line, 0);
    program_io::print_front(out, &line, length)
}
