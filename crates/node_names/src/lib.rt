// The service that gives the names of a book's nodes, so that the numbers of a row can be shown.
#![tactic(auto)]

ghost use Rattle.std.specs.Prelude.{◌≡◌, [], length, get_or};
ghost use Rattle.model.specs.Book.{node_names};
ghost use Rattle.model.specs.Service.{ones, book_service};
ghost use Rattle.model.specs.Answers.{book_answer};
ghost use Rattle.book_tables.specs.View.{book_at};
ghost use Rattle.book_tables.specs.Fits.{Fits};
ghost use Rattle.node_names.specs.Names.{name_byte, name_bytes, names_left};

use book_tables::BookCounts;
use model::{BookSize, Refusal};
use prepare::{Needs, clear, prepare};
use rules_tables::RULES_WORDS;

// "A name is a word of 1 to 24 bytes"; here it is followed by a zero.
pub const NAME_BYTES: usize = 25;

// The names of 256 nodes.
pub const ALL_NAME_BYTES: usize = 6400;

// The service: reads a book as the book reader does, and leaves the names of its nodes, 25 bytes for each: the name, then zeros. Past the last
// node, and after a refusal, every byte is 0. The working memory ends all ones.
pub fn node_names(
    book: &[u8],
    names: &mut [u8; ALL_NAME_BYTES],
    work: &mut [u32],
) -> Result<BookSize, Refusal>
    ensures answer { book_answer result ≡ (book_service (length work.old) book.now).answer }
    ensures names { names.new ≡ names_left (length work.old) book.now }
    ensures cleared { work.new ≡ ones (length work.old) }
{
    let needs = Needs {
        rules: false,
        query: false,
        request: false,
    };
    let mut table = [0u32; RULES_WORDS];
    let ready = prepare(needs, book, b"", b"", b"", work, &mut table);
    if let Err(refusal) = ready.request.verdict {
        *names = no_bytes();
        clear(work);
        return Err(refusal);
    }
    let counts = ready.book;
    *names = bytes_of(book, work, counts);
    clear(work);
    Ok(BookSize {
        nodes: counts.nodes,
        relationships: counts.relationships,
        entries: counts.entries,
    })
}

// The bytes of no names.
fn no_bytes() -> [u8; ALL_NAME_BYTES]
    ensures { result ≡ name_bytes [] }
{
    [0; ALL_NAME_BYTES]
}

// The bytes of all names of a book in words.
fn bytes_of(book: &[u8], words: &[u32], counts: BookCounts) -> [u8; ALL_NAME_BYTES]
    requires { Fits book.now words.now counts }
    ensures { result ≡ name_bytes (node_names (book_at book.now words.now counts)) }
{
    let mut bytes = [0; ALL_NAME_BYTES];
    for k in 0..ALL_NAME_BYTES {
        bytes[k] = byte_of(book, words, counts, k);
    }
    bytes
}

// One of those bytes.
fn byte_of(book: &[u8], words: &[u32], counts: BookCounts, k: usize) -> u8
    requires { Fits book.now words.now counts }
    ensures { result ≡ name_byte (node_names (book_at book.now words.now counts)) k }
{
    let node = k / NAME_BYTES;
    if counts.nodes <= node {
        return 0;
    }
    byte_at(
        book_lookup::names::node_name(book, words, node),
        k % NAME_BYTES,
    )
}

// A byte of a name, or 0 past it.
fn byte_at(name: &[u8], i: usize) -> u8
    ensures { result ≡ get_or name.now i 0 }
{
    if name.len() <= i {
        return 0;
    }
    name[i]
}
