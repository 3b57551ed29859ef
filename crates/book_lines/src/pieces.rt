// The pieces of a book's lines: first words, types, parts of the whole text.
ghost use Rattle.std.specs.Prelude.{◌≡◌, false, ◌+◌, ◌≤◌};
ghost use Rattle.item_forms.specs.Pieces.{word_next};
ghost use Rattle.book_lines.specs.Forms.{head_of, kind_read, kind_piece};
ghost use Rattle.book_lines.specs.Names.{moved_part};

use crate::Head;
use book_tables::Owner;
use book_tables::values::{BOOL, INT, STR};
use compare::same_bytes;
use item_forms::places;
use model::Part;
use text::parts;

// Which of the five first words a word is.
pub fn head(word: &[u8]) -> Head
    ensures { result ≡ head_of word.now }
{
    if same_bytes(word, b"vattr") {
        return Head::Attr(Owner::Node);
    }
    if same_bytes(word, b"eattr") {
        return Head::Attr(Owner::Relationship);
    }
    if same_bytes(word, b"label") {
        return Head::Label;
    }
    if same_bytes(word, b"node") {
        return Head::Node;
    }
    if same_bytes(word, b"rel") {
        return Head::Rel;
    }
    Head::Other
}

// Which type a word is, if it is one, and the place behind it.
fn kind_of(word: &[u8], end: usize) -> Option<(u32, usize)>
    ensures { result ≡ kind_read word.now end }
{
    if same_bytes(word, b"int") {
        return Some((INT, end));
    }
    if same_bytes(word, b"str") {
        return Some((STR, end));
    }
    if same_bytes(word, b"bool") {
        return Some((BOOL, end));
    }
    None
}

// The type that follows a name, and the place behind it.
pub fn next_kind(line: &[u8], from: usize, depth: usize) -> Option<(u32, usize)>
    ensures { result ≡ kind_piece line.now (word_next depth false line.now from) }
{
    let word = places::next_word(line, from, false, depth)?;
    kind_of(parts::part_of(line, word), word.start + word.length)
}

// A part of the line as a part of the whole text.
pub fn moved(part: Part, base: usize) -> Part
    requires { base + part.start ≤ 65536 }
    ensures { result ≡ moved_part base part }
{
    Part {
        start: base + part.start,
        length: part.length,
    }
}
