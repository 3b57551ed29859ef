// The sign at a place, and the next sign from a place on.
ghost use Rattle.std.specs.Prelude.{◌+◌, ◌<◌, length, drop};
ghost use Rattle.model.specs.Words.{word_at, whole_at, text_at};
ghost use Rattle.model.specs.Signs.{or_broken, mark_at, sign_at};
ghost use Rattle.text.specs.Places.{peek_at};
ghost use Rattle.query_signs.specs.Reads.{SignGot, NextSign};

use crate::{Sign, kinds, marks};
use model::Part;
use text::{bytes, numbers, quotes, words};

// The word at a place.
fn word_sign(s: &[u8], at: usize) -> Option<(Sign, usize)>
    ensures { SignGot s.now at (or_broken Rattle.model.specs.Signs.Sign.word (word_at (drop at s.now))) result }
{
    let q = words::word(s, at)?;
    Some((
        Sign::Word(Part {
            start: at,
            length: q - at,
        }),
        q,
    ))
}

// The whole number at a place.
fn number_sign(s: &[u8], at: usize) -> Option<(Sign, usize)>
    ensures { SignGot s.now at (or_broken Rattle.model.specs.Signs.Sign.whole (whole_at (drop at s.now))) result }
{
    let (n, q) = numbers::whole(s, at)?;
    Some((Sign::Whole(n), q))
}

// The text value whose first apostrophe stands at a place.
fn text_sign(s: &[u8], at: usize) -> Option<(Sign, usize)>
    requires { at < length s.now }
    ensures { SignGot s.now at (or_broken Rattle.model.specs.Signs.Sign.text (text_at (drop (at + 1) s.now))) result }
{
    let q = quotes::text_value(s, at)?;
    Some((
        Sign::Text(Part {
            start: at + 1,
            length: q - at - 2,
        }),
        q,
    ))
}

// The mark at a place, in a chain or not.
fn mark_sign(s: &[u8], at: usize, chain: bool) -> Option<(Sign, usize)>
    requires { at < length s.now }
    ensures { SignGot s.now at (mark_at (Rattle.model.specs.Signs.marks chain) (drop at s.now)) result }
{
    let m = marks::mark_at(s, at, chain)?;
    Some((Sign::Mark(m), at + marks::mark_size(m)))
}

// The sign at a place, in a chain or not.
fn sign_at(s: &[u8], at: usize, chain: bool) -> Option<(Sign, usize)>
    requires { at < length s.now }
    ensures { SignGot s.now at (sign_at chain (peek_at s.now at) (drop (at + 1) s.now)) result }
{
    let b = bytes::peek(s, at);
    if bytes::is_letter(b) {
        return word_sign(s, at);
    }
    if kinds::starts_number(s, at) {
        return number_sign(s, at);
    }
    if b == bytes::APOSTROPHE {
        return text_sign(s, at);
    }
    mark_sign(s, at, chain)
}

// The next sign from a place on, in a chain or not, behind a word or number or not.
pub fn next_sign(s: &[u8], from: usize, chain: bool, close: bool) -> Option<(Sign, usize)>
    ensures { NextSign chain close s.now from result }
{
    let at = kinds::blanks_end(s, from);
    if s.len() <= at {
        return None;
    }
    let (t, q) = sign_at(s, at, chain)?;
    if kinds::adjoins(close, from, at, t) {
        return None;
    }
    Some((t, q))
}
