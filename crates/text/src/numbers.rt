// Whole numbers from -2^63 to 2^63-1, each kept as z + 2^63.
ghost use Rattle.std.specs.Prelude.{◌≡◌, true, false, ◌+◌, drop};
ghost use Rattle.model.specs.Words.{digits_at, whole_at};
ghost use Rattle.text.specs.Places.{number_of, digits_of};

use crate::bytes;

// 2^63, which stands for 0.
pub const BIAS: u64 = 9223372036854775808;

// 2^63 / 10: a greater number with a digit behind it passes 2^63.
const BIAS_TENTH: u64 = 922337203685477580;

// The number that the digits from a place on write.
pub fn digits(s: &[u8], from: usize) -> Option<(u64, usize)>
    ensures { result ≡ digits_of s.now from }
{
    let mut v: u64 = 0;
    let mut i = from;
    // No `for`: where the digits end is part of the answer.
    while bytes::is_digit(bytes::peek(s, i)) {
        if BIAS_TENTH < v {
            return None;
        }
        v = v * 10 + ((s[i] - 48) as u64);
        i += 1;
    }
    if v <= BIAS {
        return Some((v, i));
    }
    None
}

// A whole number without a minus.
pub fn plain(s: &[u8], at: usize) -> Option<(u64, usize)>
    ensures { result ≡ number_of at (digits_at false (drop at s.now)) }
{
    let (v, q) = digits(s, at)?;
    if q == at {
        return None;
    }
    if bytes::peek(s, at) == bytes::ZERO {
        if q - at == 1 {
            return Some((BIAS, q));
        }
        return None;
    }
    if v < BIAS {
        return Some((BIAS + v, q));
    }
    None
}

// A whole number whose minus stands at a place.
pub fn negative(s: &[u8], at: usize) -> Option<(u64, usize)>
    ensures { result ≡ number_of at (digits_at true (drop (at + 1) s.now)) }
{
    if s.len() <= at {
        return None;
    }
    let from = at + 1;
    let (v, q) = digits(s, from)?;
    if q == from {
        return None;
    }
    if bytes::peek(s, from) == bytes::ZERO {
        return None;
    }
    Some((BIAS - v, q))
}

// The whole number at a place, where a digit or a minus stands.
pub fn whole(s: &[u8], at: usize) -> Option<(u64, usize)>
    ensures { result ≡ number_of at (whole_at (drop at s.now)) }
{
    if bytes::peek(s, at) == bytes::MINUS {
        return negative(s, at);
    }
    plain(s, at)
}
