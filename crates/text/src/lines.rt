// The bytes that are allowed, and where lines end.
ghost use Rattle.std.specs.Prelude.{◌≡◌};
ghost use Rattle.model.specs.Lists.{any};
ghost use Rattle.model.specs.Lines.{bad_line};
ghost use Rattle.text.specs.Places.{past};
ghost use Rattle.text.specs.Lines.{is_bad, is_in_line, feed_count, on_line, bytes_of};

use crate::{BytesFault, bytes};

// A byte that is neither 0x20 to 0x7E nor line feed.
pub fn is_bad(b: u8) -> bool
    ensures { result ≡ is_bad b }
{
    if b < 32 {
        return b != b'\n';
    }
    126 < b
}

// Whether some byte is not allowed.
pub fn some_bad(s: &[u8]) -> bool
    ensures { result ≡ any is_bad s.now }
{
    let mut bad = false;
    for b in s {
        bad = bad | is_bad(*b);
    }
    bad
}

// 1 for a line feed, else 0.
pub fn feed_count(b: u8) -> usize
    ensures { result ≡ feed_count b }
{
    if b == b'\n' { 1 } else { 0 }
}

// The refusal 2 of a text: the line of the first byte not allowed.
pub fn bad_line(s: &[u8]) -> Result<(), BytesFault>
    ensures { result ≡ on_line (bad_line 1 s.now) }
{
    let mut line = 1;
    for b in s {
        if is_bad(*b) {
            return Err(BytesFault::BadLine(line));
        }
        line = line + feed_count(*b);
    }
    Ok(())
}

// The refusals 1 and 2 of a text: too long, or a byte not allowed.
pub fn bytes_read(s: &[u8], limit: usize) -> Result<(), BytesFault>
    ensures { result ≡ bytes_of limit s.now }
{
    if limit < s.len() {
        return Err(BytesFault::TooLong);
    }
    if some_bad(s) {
        return bad_line(s);
    }
    Ok(())
}

// The place of the first line feed from a place on, or behind the last byte.
pub fn line_end(s: &[u8], from: usize) -> usize
    ensures { result ≡ past is_in_line s.now from }
{
    bytes::find(s, from, b'\n')
}
