// The size of a name.
ghost use Rattle.std.specs.Prelude.{◌≡◌, ◌%◌, ◌<◌, length};
ghost use Rattle.book_tables.specs.View.{word_at};

use book_tables::names::NAME_LENGTHS;

// The length of the name that the word at a place says.
pub fn name_size(words: &[u32], at: usize) -> usize
    requires { at < length words.now }
    ensures { result ≡ word_at words.now at % 32 }
{
    words[at] as usize % NAME_LENGTHS
}
