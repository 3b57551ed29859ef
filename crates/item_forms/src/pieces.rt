// The next piece of a list: a name, a value, a list, or the closing bracket; and the end of a word or of a policy text.
ghost use Rattle.std.specs.Prelude.{◌-◌, ◌<◌, ◌≡◌, true, drop, eqb};
ghost use Rattle.model.specs.Items.{item_at};
ghost use Rattle.text.specs.Places.{past, is_space};
ghost use Rattle.items.specs.Reads.{read_of};
ghost use Rattle.item_forms.specs.Pieces.{word_of, name_next, value_piece, value_next, open_next, close_next};

use items::{ItemEnd, Next, read};
use model::{Part, Value};
use text::{bytes, parts, words};

// The end of the word at a place. Its first byte decides: a word begins with a letter, and no other item does.
pub fn word_at(s: &[u8], p: usize) -> Option<usize>
    ensures { result ≡ word_of s.now p }
{
    if bytes::is_letter(bytes::peek(s, p)) {
        return words::word(s, p);
    }
    None
}

// The next item, if it is a name; or the closing bracket. Put into its callers, since a book's names are all read by it: for speed.
#[inline]
pub fn next_name(s: &[u8], from: usize, free: bool, depth: usize) -> Option<Next<Part>>
    ensures { result ≡ name_next depth free s.now from }
{
    match read::next(s, from, free)? {
        Next::Item(p) => {
            let q = word_at(s, p)?;
            let name = Part {
                start: p,
                length: q - p,
            };
            if compare::is_name(parts::part_of(s, name)) {
                return Some(Next::Item(name));
            }
            None
        }
        Next::Close(e) => Some(Next::Close(e)),
    }
}

// The value at a place.
pub fn value(s: &[u8], at: usize, depth: usize) -> Option<(Value, usize)>
    ensures { result ≡ value_piece s.now at (read_of at (item_at depth (drop at s.now))) }
{
    match read::item(s, at, depth)? {
        ItemEnd::Word(q) => {
            if compare::same_bytes(&s[at..q], b"true") {
                return Some((Value::Truth(true), q));
            }
            if compare::same_bytes(&s[at..q], b"false") {
                return Some((Value::Truth(false), q));
            }
            None
        }
        ItemEnd::Number(n, q) => Some((Value::Number(n), q)),
        ItemEnd::Text(q) => Some((Value::Text(at + 1, q - at - 2), q)),
        ItemEnd::Quoted(_) | ItemEnd::List(_) => None,
    }
}

// The next item, if it is a value. Put into its callers: for speed.
#[inline(always)]
pub fn next_value(s: &[u8], from: usize, free: bool, depth: usize) -> Option<(Value, usize)>
    ensures { result ≡ value_next depth free s.now from }
{
    let p = read::next(s, from, free)?.item()?;
    value(s, p, depth)
}

// Where the items of the next item begin, if it is a list; or the closing bracket.
pub fn open_list(s: &[u8], from: usize) -> Option<Next<usize>>
    ensures { result ≡ open_next s.now from }
{
    match read::next(s, from, true)? {
        Next::Item(p) => {
            if bytes::peek(s, p) == bytes::OPENING_BRACKET {
                return Some(Next::Item(p + 1));
            }
            None
        }
        Next::Close(e) => Some(Next::Close(e)),
    }
}

// The place behind the closing bracket, if it comes next.
pub fn close_list(s: &[u8], from: usize) -> Option<usize>
    ensures { result ≡ close_next s.now from }
{
    match read::next(s, from, true)? {
        Next::Item(_) => None,
        Next::Close(e) => Some(e),
    }
}

// Whether nothing but spaces stands from a place to the closing bracket before the end of a list.
pub fn only_closes(s: &[u8], from: usize, end: usize) -> bool
    requires { 0 < end }
    ensures { result ≡ eqb (past is_space s.now from) (end - 1) }
{
    words::spaces_end(s, from) == end - 1
}
