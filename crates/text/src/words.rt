// Words, and runs of spaces.
ghost use Rattle.std.specs.Prelude.{◌≡◌, drop};
ghost use Rattle.model.specs.Words.{is_word_byte, word_at};
ghost use Rattle.text.specs.Places.{end_of, past, is_space};

use crate::bytes;
use model::limits::MAX_WORD_BYTES;

// The place behind the spaces that stand from a place on.
pub fn spaces_end(s: &[u8], from: usize) -> usize
    ensures { result ≡ past is_space s.now from }
{
    // No `for`: put into its callers it counts in three to five ways at once, and a book with wide spaces takes half as long again to read.
    let mut i = from;
    while bytes::peek(s, i) == bytes::SPACE {
        i += 1;
    }
    i
}

// The place behind the letters, digits and underscores that stand from a place on.
pub fn run_end(s: &[u8], from: usize) -> usize
    ensures { result ≡ past is_word_byte s.now from }
{
    for i in from..s.len() {
        if !bytes::in_word(s[i]) {
            return i;
        }
    }
    from.max(s.len())
}

// The end of the word at a place, where a letter stands.
pub fn word(s: &[u8], at: usize) -> Option<usize>
    ensures { result ≡ end_of at (word_at (drop at s.now)) }
{
    let q = run_end(s, at);
    if q - at <= MAX_WORD_BYTES {
        return Some(q);
    }
    None
}
