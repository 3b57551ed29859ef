// Names in the tables, as parts of the rules' text.
ghost use Rattle.std.specs.Prelude.{◌≡◌, ◌/◌, ◌%◌, ◌<◌, length};
ghost use Rattle.book_tables.specs.View.{word_at, name_in};
ghost use Rattle.book_tables.specs.Fits.{Inside};

use book_tables::names::NAME_LENGTHS;

// The name whose word stands at a place.
pub fn name_at<'a>(text: &'a [u8], words: &[u32], at: usize) -> &'a [u8]
    requires { (at < length words.now) × Inside text.now (word_at words.now at / 32) (word_at words.now at % 32) }
    ensures { result.now ≡ name_in text.now (word_at words.now at) }
{
    let word = words[at] as usize;
    let start = word / NAME_LENGTHS;
    let end = start + word % NAME_LENGTHS;
    &text[start..end]
}
