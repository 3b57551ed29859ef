// Putting bytes into a buffer, one behind another: those past its end are counted, and not kept.
ghost use Rattle.std.specs.Prelude.{◌≡◌, [], ◌∷◌};
ghost use Rattle.model.specs.Answers.{name_at};
ghost use Rattle.text.specs.Parts.{HasPart};
ghost use Rattle.book_tables.specs.View.{name_of};
ghost use Rattle.putting.specs.Putting.{further, Puts, Declared};
ghost use Rattle.putting.specs.Listing.{before};

use book_tables::names::NAME_LENGTHS;
use model::Part;
use text::parts;

// Places are counted as far as numbers go.
const LAST_PLACE: usize = 18446744073709551615;

// The next place.
fn further(at: usize) -> usize
    ensures { result ≡ further at }
{
    if at < LAST_PLACE { at + 1 } else { at }
}

// Puts one byte.
pub fn put_byte(byte: u8, out: &mut [u8], at: usize) -> usize
    ensures { Puts out.old at (byte ∷ []) out.new result }
{
    if at < out.len() {
        out[at] = byte;
        return further(at);
    }
    further(at)
}

// Puts a text.
pub fn put_bytes(bytes: &[u8], out: &mut [u8], at: usize) -> usize
    ensures { Puts out.old at bytes.now out.new result }
{
    let mut next = at;
    for byte in bytes {
        next = put_byte(*byte, out, next);
    }
    next
}

// Puts the text that opens the first of several things, or the one between two.
pub fn put_before(i: usize, first: &[u8], next: &[u8], out: &mut [u8], at: usize) -> usize
    ensures { Puts out.old at (before first.now next.now i) out.new result }
{
    if i == 0 {
        return put_bytes(first, out, at);
    }
    put_bytes(next, out, at)
}

// Puts a part of a text.
pub fn put_part(text: &[u8], part: Part, out: &mut [u8], at: usize) -> usize
    requires { HasPart text.now part }
    ensures { Puts out.old at (name_at text.now part) out.new result }
{
    put_bytes(parts::part_of(text, part), out, at)
}

// Puts the name of a number in the book's table at an offset.
pub fn put_declared(
    book: &[u8],
    words: &[u32],
    offset: usize,
    number: usize,
    out: &mut [u8],
    at: usize,
) -> usize
    requires { Declared book.now words.now offset number }
    ensures { Puts out.old at (name_of book.now words.now offset number) out.new result }
{
    let word = words[offset + number] as usize;
    let name = Part {
        start: word / NAME_LENGTHS,
        length: word % NAME_LENGTHS,
    };
    put_part(book, name, out, at)
}
