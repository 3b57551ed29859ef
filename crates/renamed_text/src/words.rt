// Words of a line by places: a word is a run of word bytes, whatever stands before it.
ghost use Rattle.std.specs.Prelude.{◌≡◌, ◌≤◌, length};
ghost use Rattle.text.specs.Places.{past};
ghost use Rattle.renamed_text.specs.Words.{is_between, FirstWord, LineWord};

// Where a word starts and ends.
#[derive(Clone, Copy)]
pub struct Word {
    pub start: usize,
    pub end: usize,
}

// The place of the first byte of a word from a place on, or behind the last byte.
fn word_start(s: &[u8], from: usize) -> usize
    ensures { result ≡ past is_between s.now from }
{
    for i in from..s.len() {
        if text::bytes::in_word(s[i]) {
            return i;
        }
    }
    from.max(s.len())
}

// The first word from a place on; an empty one behind the last byte if there is none.
pub fn first_word(s: &[u8], from: usize) -> Word
    requires { from ≤ length s.now }
    ensures { FirstWord s.now from result }
{
    let start = word_start(s, from);
    Word {
        start,
        end: text::words::run_end(s, start),
    }
}

// The first word from a place on of a line up to an end.
pub fn line_word(text: &[u8], to: usize, from: usize) -> Word
    requires { (from ≤ to) × (to ≤ length text.now) }
    ensures { LineWord text.now to from result }
{
    first_word(&text[..to], from)
}
