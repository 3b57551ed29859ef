// Relation signs and marks, each kept as a code: its byte, or 256 times its first byte and its second.
// A code stays a number: an enum of the 16 marks would need a table from bytes to marks, one back and one of sizes, where a code is all three.
ghost use Rattle.std.specs.Prelude.{◌≡◌, ◌&&◌, ◌+◌, ◌*◌, ◌<◌, length, drop};
ghost use Rattle.model.specs.Signs.{mark_at};
ghost use Rattle.query_signs.specs.Marks.{is_single, is_pair, is_arrow, mark_got, mark_size, code_or, IsCode};

use text::bytes;

pub const OPEN: usize = 40;

pub const CLOSE: usize = 41;

pub const COMMA: usize = 44;

pub const MINUS: usize = 45;

pub const DOT: usize = 46;

pub const COLON: usize = 58;

pub const LESS: usize = 60;

pub const EQUAL: usize = 61;

pub const GREATER: usize = 62;

pub const OPEN_SQUARE: usize = 91;

pub const CLOSE_SQUARE: usize = 93;

pub const DIFFERS: usize = 60 * 256 + 62;

pub const AT_MOST: usize = 60 * 256 + 61;

pub const AT_LEAST: usize = 62 * 256 + 61;

pub const LEFTWARD: usize = 60 * 256 + 45;

pub const RIGHTWARD: usize = 45 * 256 + 62;

// A byte that is a mark by itself.
fn is_single(b: usize) -> bool
    ensures { result ≡ is_single b }
{
    if b < OPEN {
        return false;
    }
    if b <= CLOSE {
        return true;
    }
    if b < COMMA {
        return false;
    }
    if b <= DOT {
        return true;
    }
    if b == COLON {
        return true;
    }
    if b < LESS {
        return false;
    }
    if b <= GREATER {
        return true;
    }
    if b == OPEN_SQUARE {
        return true;
    }
    b == CLOSE_SQUARE
}

// Two bytes that are a relation sign.
fn is_pair(code: usize) -> bool
    ensures { result ≡ is_pair code }
{
    if code == DIFFERS {
        return true;
    }
    if code == AT_MOST {
        return true;
    }
    code == AT_LEAST
}

// Two bytes that are an arrow, in a chain only.
fn is_arrow(chain: bool, code: usize) -> bool
    ensures { result ≡ (chain && is_arrow code) }
{
    if !chain {
        return false;
    }
    if code == LEFTWARD {
        return true;
    }
    code == RIGHTWARD
}

// The code of the mark at a place, in a chain or not.
pub fn mark_at(s: &[u8], at: usize, chain: bool) -> Option<usize>
    requires { at < length s.now }
    ensures reads { mark_got (code_or result) ≡ mark_at (Rattle.model.specs.Signs.marks chain) (drop at s.now) }
    ensures some { IsCode result }
{
    let b = bytes::peek(s, at);
    let pair = b * 256 + bytes::peek(s, at + 1);
    if is_arrow(chain, pair) {
        return Some(pair);
    }
    if is_pair(pair) {
        return Some(pair);
    }
    if is_single(b) {
        return Some(b);
    }
    None
}

// How many bytes a mark has.
pub fn mark_size(code: usize) -> usize
    ensures { result ≡ mark_size code }
{
    if code < 256 {
        return 1;
    }
    2
}
