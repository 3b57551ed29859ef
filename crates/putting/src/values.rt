// Putting values: whole numbers in decimal, texts between apostrophes, true and false.
ghost use Rattle.std.specs.Prelude.{◌+◌, ◌/◌, ◌%◌, ◌<◌, ◌⊎◌, [], ◌∷◌};
ghost use Rattle.model.specs.Values.{bool, str};
ghost use Rattle.model.specs.Answers.{part_of};
ghost use Rattle.model.specs.Writing.{digits, whole_text, value_text};
ghost use Rattle.book_tables.specs.Fits.{Inside};
ghost use Rattle.putting.specs.Putting.{Puts};

use crate::bytes;
use model::Part;
use text::numbers::BIAS;

// No number of 64 bits has more decimal digits.
const MAX_DIGITS: usize = 20;

const TEN: u64 = 10;

const HUNDRED: u64 = 100;

// Puts the decimal digits of a number, at most so many of them: two at a time, since each division waits for the one before.
pub fn put_digits(most: usize, n: u64, out: &mut [u8], at: usize) -> usize
    ensures { Puts out.old at (digits most n) out.new result }
{
    if most < 2 {
        return put_few(most, n, out, at);
    }
    if n < HUNDRED {
        return put_few(most, n, out, at);
    }
    let next = put_digits(most - 2, n / HUNDRED, out, at);
    put_pair(n % HUNDRED, out, next)
}

// The same where there are at most two of them.
fn put_few(most: usize, n: u64, out: &mut [u8], at: usize) -> usize
    requires { (most < 2) ⊎ (n < 100) }
    ensures { Puts out.old at (digits most n) out.new result }
{
    if most == 0 {
        return at;
    }
    if n < TEN {
        return bytes::put_byte(b'0' + n as u8, out, at);
    }
    if most == 1 {
        return bytes::put_byte(b'0' + (n % TEN) as u8, out, at);
    }
    put_pair(n, out, at)
}

// Puts two digits.
fn put_pair(n: u64, out: &mut [u8], at: usize) -> usize
    requires { n < 100 }
    ensures { Puts out.old at ((48 + n / 10) ∷ (48 + n % 10) ∷ []) out.new result }
{
    let next = bytes::put_byte(b'0' + (n / TEN) as u8, out, at);
    bytes::put_byte(b'0' + (n % TEN) as u8, out, next)
}

// Puts a whole number, with a minus if it is below zero.
pub fn put_whole(n: u64, out: &mut [u8], at: usize) -> usize
    ensures { Puts out.old at (whole_text n) out.new result }
{
    if BIAS <= n {
        return put_digits(MAX_DIGITS, n - BIAS, out, at);
    }
    let next = bytes::put_byte(b'-', out, at);
    put_digits(MAX_DIGITS, BIAS - n, out, next)
}

// Puts a text value, a part of a text, between apostrophes.
pub fn put_quoted(text: &[u8], start: usize, length: usize, out: &mut [u8], at: usize) -> usize
    requires { Inside text.now start length }
    ensures { Puts out.old at (value_text (str (part_of text.now start length))) out.new result }
{
    let opened = bytes::put_byte(b'\'', out, at);
    let value = Part { start, length };
    let next = bytes::put_part(text, value, out, opened);
    bytes::put_byte(b'\'', out, next)
}

// Puts a truth value.
pub fn put_truth(truth: bool, out: &mut [u8], at: usize) -> usize
    ensures { Puts out.old at (value_text (bool truth)) out.new result }
{
    if truth {
        return bytes::put_bytes(b"true", out, at);
    }
    bytes::put_bytes(b"false", out, at)
}
