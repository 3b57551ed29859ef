// The byte at a place, and the kinds of bytes.
ghost use Rattle.std.specs.Prelude.{◌≡◌, ◌+◌, ◌≤◌, length};
ghost use Rattle.model.specs.Words.{is_letter, is_digit, is_word_byte};
ghost use Rattle.text.specs.Places.{peek_at, past, is_other, has_near};

// What stands past the last byte of a text.
pub const END: usize = 256;

pub const LINE_FEED: usize = 10;

pub const SPACE: usize = 32;

pub const DOUBLE_QUOTE: usize = 34;

pub const APOSTROPHE: usize = 39;

pub const OPENING_BRACKET: usize = 40;

pub const CLOSING_BRACKET: usize = 41;

pub const MINUS: usize = 45;

pub const ZERO: usize = 48;

pub const NINE: usize = 57;

// The bytes of words below 64, a bit each: the digits; and those from 64 to 127: letters and the underscore.
const WORD_BYTES_LOW: u64 = 0x03FF_0000_0000_0000;

const WORD_BYTES_HIGH: u64 = 0x07FF_FFFE_87FF_FFFE;

// The byte at a place, or END past the last one.
pub fn peek(s: &[u8], i: usize) -> usize
    ensures { result ≡ peek_at s.now i }
{
    if i < s.len() { s[i] as usize } else { END }
}

// A to Z, a to z.
pub fn is_letter(b: usize) -> bool
    ensures { result ≡ is_letter b }
{
    if b < 65 {
        return false;
    }
    if b <= 90 {
        return true;
    }
    if b < 97 {
        return false;
    }
    b <= 122
}

// 0 to 9.
pub fn is_digit(b: usize) -> bool
    ensures { result ≡ is_digit b }
{
    if b < ZERO {
        return false;
    }
    b <= NINE
}

// A letter, a digit or an underscore: a bit for each byte says it, so that no byte is told from another by a branch.
pub fn in_word(b: u8) -> bool
    ensures { result ≡ is_word_byte b }
{
    let bits = if b < 64 {
        WORD_BYTES_LOW
    } else {
        WORD_BYTES_HIGH
    };
    (b < 128) & (bits >> (b % 64) as u32 & 1 == 1)
}

// The place of the first such byte from a place on, or behind the last byte. Blocks of eight bytes without it are passed over whole.
pub fn find(s: &[u8], from: usize, byte: u8) -> usize
    ensures { result ≡ past (is_other byte) s.now from }
{
    if s.len() <= from {
        return from;
    }
    let mut i = from;
    // By eights, counted by hand, since line ends and quotes are looked for in every text: for speed.
    while 8 <= s.len() - i {
        if in_eight(s, i, byte) {
            return find_near(s, i, byte);
        }
        i += 8;
    }
    find_near(s, i, byte)
}

// Whether one of the eight bytes from a place on is the byte.
fn in_eight(s: &[u8], i: usize, byte: u8) -> bool
    requires { i + 8 ≤ length s.now }
    ensures { result ≡ has_near s.now i byte 7 }
{
    (s[i] == byte)
        | (s[i + 1] == byte)
        | (s[i + 2] == byte)
        | (s[i + 3] == byte)
        | (s[i + 4] == byte)
        | (s[i + 5] == byte)
        | (s[i + 6] == byte)
        | (s[i + 7] == byte)
}

// The same as `find`, byte by byte.
fn find_near(s: &[u8], from: usize, byte: u8) -> usize
    ensures { result ≡ past (is_other byte) s.now from }
{
    for i in from..s.len() {
        if s[i] == byte {
            return i;
        }
    }
    from.max(s.len())
}
