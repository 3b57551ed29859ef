// Texts from files. No contract can say what a file holds, nor what the system told of it (at_end, and the `whole` of FileRead and of TextsRead); these
// say that the bytes counted are in the buffer. Of a reader whose bytes are known `read_opened` and `read_full` say which of them these are.
ghost use Rattle.std.specs.Prelude.{◌≡◌, ◌<◌, ◌↔◌, take, length, IfSome, IsOk, IsTrue, OnOk};
ghost use Rattle.io.specs.Counts.{IsPrefixLen};
ghost use Rattle.std.specs.Io.{StartsWith};
ghost use Rattle.std.specs.Io.KnownBytes.{Consumes, IsAtEnd};

use model::limits::{MAX_BOOK_BYTES, MAX_QUERY_BYTES, MAX_REQUEST_BYTES, MAX_RULES_BYTES};
use std::io::Read;
use std::rt::Files;
use std::{fs, io};

// Each text has room for one byte more than its limit, so that a file past the limit is seen to be too long.
pub const BOOK_ROOM: usize = MAX_BOOK_BYTES + 1;

pub const RULES_ROOM: usize = MAX_RULES_BYTES + 1;

pub const QUERY_ROOM: usize = MAX_QUERY_BYTES + 1;

pub const REQUEST_ROOM: usize = MAX_REQUEST_BYTES + 1;

// A file's bytes in front of a buffer: how many, and whether they are the whole file, or as much of it as the buffer takes.
// No Option: of a part too `read_text` says how much of it stands in the buffer, and `cases` prints it.
#[derive(Clone, Copy)]
pub struct FileRead {
    pub length: usize,
    pub whole: bool,
}

// The bytes of a folder's four texts in front of their buffers: how many of each, and whether they are the whole files.
#[derive(Clone, Copy)]
pub struct TextsRead {
    pub book: usize,
    pub rules: usize,
    pub query: usize,
    pub request: usize,
    pub whole: bool,
}

// Reads book.txt, rules.txt, query.txt and request.txt of the current folder.
pub fn read_texts(
    rt: &(impl Files + Eprint),
    book: &mut [u8],
    rules: &mut [u8],
    query: &mut [u8],
    request: &mut [u8],
) -> TextsRead
    ensures { IsPrefixLen result.book book.new × IsPrefixLen result.rules rules.new × IsPrefixLen result.query query.new
        × IsPrefixLen result.request request.new }
{
    let in_book = read_text(rt, b"book.txt", book);
    let in_rules = read_text(rt, b"rules.txt", rules);
    let in_query = read_text(rt, b"query.txt", query);
    let in_request = read_text(rt, b"request.txt", request);
    TextsRead {
        book: in_book.length,
        rules: in_rules.length,
        query: in_query.length,
        request: in_request.length,
        whole: in_book.whole && in_rules.whole && in_query.whole && in_request.whole,
    }
}

// Reads a file; one that cannot be opened counts as no bytes.
pub fn read_text(rt: &(impl Files + Eprint), path: &[u8], text: &mut [u8]) -> FileRead
    ensures { IsPrefixLen result.length text.new }
{
    match open_read(rt, path) {
        Some(file) => read_opened(rt, file, path, text),
        None => FileRead {
            length: 0,
            whole: true,
        },
    }
}

// Reads a file, or another file if the first cannot be opened.
pub fn read_either(
    rt: &(impl Files + Eprint),
    path: &[u8],
    other: &[u8],
    text: &mut [u8],
) -> FileRead
    ensures { IsPrefixLen result.length text.new }
{
    match open_read(rt, path) {
        Some(file) => read_opened(rt, file, path, text),
        None => read_text(rt, other, text),
    }
}

// Opens a file for reading. The system takes a path that is UTF-8 alone; no file can be opened by another.
fn open_read<R: Files>(rt: &R, path: &[u8]) -> Option<R::File> {
    let name = str::from_utf8(path).ok()?;
    fs::open(rt, name).ok()
}

// Reads a file that is open, and closes it.
fn read_opened<F: Read + Drop>(
    rt: &impl Eprint,
    mut file: F,
    path: &[u8],
    text: &mut [u8],
) -> FileRead
    ensures inside { IsPrefixLen result.length text.new }
    ensures first { IfSome (F.remaining file) (λ held. StartsWith held (take result.length text.new)) }
    ensures whole { IsTrue result.whole → IfSome (F.remaining file) (λ held. take result.length text.new ≡ take (length text.new) held) }
{
    let (length, read) = read_full(&mut file, text);
    let whole = at_end(rt, read, path);
    FileRead { length, whole }
}

// Reads until the buffer is full or the input ends, or up to a read that fails.
fn read_full<F: Read>(file: &mut F, text: &mut [u8]) -> (usize, io::Result<()>)
    ensures inside { IsPrefixLen result.0 text.new }
    ensures bytes { Consumes (F.remaining file.old) (F.remaining file.new) (take result.0 text.new) }
    ensures whole { OnOk result.1 (result.0 < length text.new → IsAtEnd (F.remaining file.new)) }
{
    let mut done = 0;
    while done < text.len() {
        match file.read(&mut text[done..]) {
            Ok(0) => return (done, Ok(())),
            Ok(n) => done += n,
            Err(error) => return (done, Err(error)),
        }
    }
    (done, Ok(()))
}

// Whether a file was read to its end, or as far as the buffer reaches; a file that cannot be read is told on standard error. What standard error does not
// take can be told nowhere.
fn at_end(rt: &impl Eprint, read: io::Result<()>, path: &[u8]) -> bool
    ensures { IsTrue result ↔ IsOk read }
{
    match read {
        Ok(()) => true,
        Err(error) => {
            let name = str::from_utf8(path).unwrap_or_default();
            let _ = eprintln!(rt; "{name}: {error}");
            false
        }
    }
}
