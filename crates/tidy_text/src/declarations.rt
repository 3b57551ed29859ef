// Putting what a book declares: one line for each attribute, one for each label.
ghost use Rattle.book_tables.specs.Layout.{label_names};
ghost use Rattle.putting.specs.Putting.{Puts, Declared};
ghost use Rattle.tidy_text.specs.Pieces.{type_piece, attr_piece, attrs_text, label_piece, labels_text};
ghost use Rattle.tidy_text.specs.Inside.{AttrInside, AttrsInside, LabelsInside};

use book_tables::LABEL_NAMES;
use book_tables::values::{INT, STR};
use model::limits::MAX_DECLARED;
use putting::bytes;

// Puts a line for each of the attributes declared at an offset; `front` is what stands before the name, (vattr or (eattr and a space.
pub fn put_attrs(
    book: &[u8],
    words: &[u32],
    front: &[u8],
    offset: usize,
    count: usize,
    out: &mut [u8],
    at: usize,
) -> usize
    requires { AttrsInside book.now words.now offset count }
    ensures { Puts out.old at (attrs_text book.now words.now front.now offset count) out.new result }
{
    let mut next = at;
    for i in 0..count {
        next = put_attr(book, words, front, offset, i, out, next);
    }
    next
}

// Puts the line of an attribute, (vattr NAME TYPE) or (eattr NAME TYPE).
fn put_attr(
    book: &[u8],
    words: &[u32],
    front: &[u8],
    offset: usize,
    number: usize,
    out: &mut [u8],
    at: usize,
) -> usize
    requires { AttrInside book.now words.now offset number }
    ensures { Puts out.old at (attr_piece book.now words.now front.now offset number) out.new result }
{
    let kind = words[offset + MAX_DECLARED + number];
    let at = bytes::put_bytes(front, out, at);
    let at = bytes::put_declared(book, words, offset, number, out, at);
    put_type(kind, out, at)
}

// Puts a type behind a space, and the end of its line.
fn put_type(kind: u32, out: &mut [u8], at: usize) -> usize
    ensures { Puts out.old at (type_piece kind) out.new result }
{
    if kind == INT {
        return bytes::put_bytes(b" int)\n", out, at);
    }
    if kind == STR {
        return bytes::put_bytes(b" str)\n", out, at);
    }
    bytes::put_bytes(b" bool)\n", out, at)
}

// Puts a line for each label.
pub fn put_labels(book: &[u8], words: &[u32], count: usize, out: &mut [u8], at: usize) -> usize
    requires { LabelsInside book.now words.now count }
    ensures { Puts out.old at (labels_text book.now words.now count) out.new result }
{
    let mut next = at;
    for i in 0..count {
        next = put_label(book, words, i, out, next);
    }
    next
}

// Puts the line of a label, (label NAME).
fn put_label(book: &[u8], words: &[u32], number: usize, out: &mut [u8], at: usize) -> usize
    requires { Declared book.now words.now label_names number }
    ensures { Puts out.old at (label_piece book.now words.now number) out.new result }
{
    let at = bytes::put_bytes(b"(label ", out, at);
    let at = bytes::put_declared(book, words, LABEL_NAMES, number, out, at);
    bytes::put_bytes(b")\n", out, at)
}
