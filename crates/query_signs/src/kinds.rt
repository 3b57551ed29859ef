// Blanks between signs, where a number begins, and which signs are words or numbers.
ghost use Rattle.std.specs.Prelude.{◌≡◌, ◌&&◌, ◌||◌, ◌+◌, ◌<◌, length, drop, eqb};
ghost use Rattle.model.specs.Words.{is_digit};
ghost use Rattle.model.specs.Signs.{digit_next};
ghost use Rattle.text.specs.Places.{peek_at, past};
ghost use Rattle.query_signs.specs.Reads.{is_blank, is_wordy};

use crate::Sign;
use text::bytes;

// A space or a line feed.
fn is_blank(b: usize) -> bool
    ensures { result ≡ is_blank b }
{
    if b == bytes::SPACE {
        return true;
    }
    b == bytes::LINE_FEED
}

// The place behind the spaces and line feeds that stand from a place on.
pub fn blanks_end(s: &[u8], from: usize) -> usize
    ensures { result ≡ past is_blank s.now from }
{
    for i in from..s.len() {
        if !is_blank(s[i] as usize) {
            return i;
        }
    }
    from.max(s.len())
}

// A number begins at a place: a digit stands there, or a minus before a digit.
pub fn starts_number(s: &[u8], at: usize) -> bool
    requires { at < length s.now }
    ensures { result ≡ (is_digit (peek_at s.now at) || eqb (peek_at s.now at) 45 && digit_next (drop (at + 1) s.now)) }
{
    let b = bytes::peek(s, at);
    if bytes::is_digit(b) {
        return true;
    }
    if b != bytes::MINUS {
        return false;
    }
    bytes::is_digit(bytes::peek(s, at + 1))
}

// A word or a number, which has a space or line feed to another.
pub fn is_wordy(t: Sign) -> bool
    ensures { result ≡ is_wordy t }
{
    match t {
        Sign::Word(_) => true,
        Sign::Whole(_) => true,
        Sign::Text(_) => false,
        Sign::Mark(_) => false,
    }
}

// A place lies right behind a word or number.
pub fn touches(close: bool, from: usize, at: usize) -> bool
    ensures { result ≡ (close && eqb at from) }
{
    if !close {
        return false;
    }
    at == from
}

// A word or a number stands right behind another.
pub fn adjoins(close: bool, from: usize, at: usize, t: Sign) -> bool
    ensures { result ≡ (close && eqb at from && is_wordy t) }
{
    if !touches(close, from, at) {
        return false;
    }
    is_wordy(t)
}
