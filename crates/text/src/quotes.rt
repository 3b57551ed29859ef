// Text values between apostrophes, and policy texts between double quotes.
ghost use Rattle.std.specs.Prelude.{◌≡◌, ◌+◌, drop};
ghost use Rattle.model.specs.Words.{text_at, quoted_at};
ghost use Rattle.text.specs.Places.{end_of, past, is_in_text};

use crate::bytes;
use model::limits::MAX_TEXT_BYTES;

// A byte that a text value may have.
pub fn in_text(b: u8) -> bool
    ensures { result ≡ is_in_text b }
{
    if b == b'\'' {
        return false;
    }
    if b == b'"' {
        return false;
    }
    b != b'\n'
}

// The place behind the bytes from a place on that a text value may have.
pub fn text_end(s: &[u8], from: usize) -> usize
    ensures { result ≡ past is_in_text s.now from }
{
    for i in from..s.len() {
        if !in_text(s[i]) {
            return i;
        }
    }
    from.max(s.len())
}

// The end of the text value whose first apostrophe stands at a place.
pub fn text_value(s: &[u8], at: usize) -> Option<usize>
    ensures { result ≡ end_of at (text_at (drop (at + 1) s.now)) }
{
    if s.len() <= at {
        return None;
    }
    let from = at + 1;
    let q = text_end(s, from);
    if bytes::peek(s, q) != bytes::APOSTROPHE {
        return None;
    }
    if q - from <= MAX_TEXT_BYTES {
        return Some(q + 1);
    }
    None
}

// The end of the policy text whose first double quote stands at a place.
pub fn quoted(s: &[u8], at: usize) -> Option<usize>
    ensures { result ≡ end_of at (quoted_at (drop (at + 1) s.now)) }
{
    if s.len() <= at {
        return None;
    }
    let q = bytes::find(s, at + 1, b'"');
    if bytes::peek(s, q) != bytes::DOUBLE_QUOTE {
        return None;
    }
    Some(q + 1)
}
