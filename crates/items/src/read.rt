// The item reader and the list reader.
ghost use Rattle.std.specs.Prelude.{◌≡◌, ◌||◌, drop, eqb};
ghost use Rattle.model.specs.Words.{is_digit};
ghost use Rattle.model.specs.Items.{plain_at, item_at};
ghost use Rattle.items.specs.Reads.{read_of, next_at, list_end};

use crate::{ItemEnd, Next};
use text::{bytes, numbers, quotes, words};

// A digit or a minus.
pub fn starts_number(b: usize) -> bool
    ensures { result ≡ (is_digit b || eqb b 45) }
{
    if bytes::is_digit(b) {
        return true;
    }
    b == bytes::MINUS
}

// The item at a place, if it is no list.
pub fn plain(s: &[u8], at: usize) -> Option<ItemEnd>
    ensures { result ≡ read_of at (plain_at (drop at s.now)) }
{
    let b = bytes::peek(s, at);
    if bytes::is_letter(b) {
        return words::word(s, at).map(ItemEnd::Word);
    }
    if starts_number(b) {
        let (n, q) = numbers::whole(s, at)?;
        return Some(ItemEnd::Number(n, q));
    }
    if b == bytes::APOSTROPHE {
        return quotes::text_value(s, at).map(ItemEnd::Text);
    }
    if b == bytes::DOUBLE_QUOTE {
        return quotes::quoted(s, at).map(ItemEnd::Quoted);
    }
    None
}

// Whether an item may begin with a byte: behind a bracket or a space, or with an opening bracket.
pub fn may_begin(free: bool, b: usize) -> bool
    ensures { result ≡ (free || eqb b 40) }
{
    if free {
        return true;
    }
    b == bytes::OPENING_BRACKET
}

// What follows in a list from a place on. `free`: a bracket or a space stands before the place.
pub fn next(s: &[u8], from: usize, free: bool) -> Option<Next<usize>>
    ensures { result ≡ next_at free s.now from }
{
    let p = words::spaces_end(s, from);
    let b = bytes::peek(s, p);
    if b == bytes::CLOSING_BRACKET {
        return Some(Next::Close(p + 1));
    }
    if from < p {
        return Some(Next::Item(p));
    }
    if may_begin(free, b) {
        return Some(Next::Item(p));
    }
    None
}

// The item at a place, where `depth` lists may still be opened.
#[cycle(item_list)]
pub fn item(s: &[u8], at: usize, depth: usize) -> Option<ItemEnd>
    ensures { result ≡ read_of at (item_at depth (drop at s.now)) }
{
    if bytes::peek(s, at) == bytes::OPENING_BRACKET {
        if depth == 0 {
            return None;
        }
        return list(s, at + 1, true, depth - 1).map(ItemEnd::List);
    }
    plain(s, at)
}

// The end of the list whose items stand from a place on, where in it `depth` lists may still be opened. `free`: as for `next`.
#[cycle(item_list)]
pub fn list(s: &[u8], from: usize, free: bool, depth: usize) -> Option<usize>
    ensures { result ≡ list_end depth free s.now from }
{
    let mut i = from;
    let mut free_here = free;
    while i < s.len() {
        match next(s, i, free_here)? {
            Next::Item(p) => {
                let opens = bytes::peek(s, p) == bytes::OPENING_BRACKET;
                i = item(s, p, depth)?.end();
                free_here = opens;
            }
            Next::Close(e) => {
                return Some(e);
            }
        }
    }
    None
}
