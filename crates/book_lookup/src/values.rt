// The value of an entry: its type, and the number, text or truth value that it is.
ghost use Rattle.std.specs.Prelude.{◌≡◌, ◌+◌, ◌*◌, ◌≤◌};
ghost use Rattle.model.specs.Bytes.{Bytes};
ghost use Rattle.model.specs.Values.{int, str, bool, ints, strs, bools};
ghost use Rattle.book_tables.specs.Layout.{entries};
ghost use Rattle.book_tables.specs.View.{word_at};
ghost use Rattle.book_lookup.specs.Entries.{kind_at, entry_value};
ghost use Rattle.book_lookup.specs.Ready.{Room, OfType, EntryReady};

use crate::entries::ENTRY_TYPES;
use book_tables::ENTRIES;
use book_tables::stores::ENTRY_WORDS;
use book_tables::values::HALF;

// The type of an entry: book_tables::values::INT, STR or BOOL.
pub fn kind_of(words: &[u32], entry: usize) -> u32
    requires { Room words.now entry }
    ensures { result ≡ kind_at words.now entry }
{
    word_of(words, entry, 0) % ENTRY_TYPES
}

// The number that an entry's value is, kept as z + 2^63.
pub fn number_of(words: &[u32], entry: usize) -> u64
    requires { OfType ints words.now entry }
    ensures { (book : Bytes) → entry_value book words.now entry ≡ int result }
{
    word_of(words, entry, 1) as u64 * HALF + word_of(words, entry, 2) as u64
}

// The text that an entry's value is: that very part of the book's text between the apostrophes.
pub fn text_of<'a>(book: &'a [u8], words: &[u32], entry: usize) -> &'a [u8]
    requires { EntryReady book.now words.now entry × OfType strs words.now entry }
    ensures { entry_value book.now words.now entry ≡ str result.now }
{
    let start = word_of(words, entry, 1) as usize;
    let end = start + word_of(words, entry, 2) as usize;
    &book[start..end]
}

// The truth value that an entry's value is.
pub fn truth_of(words: &[u32], entry: usize) -> bool
    requires { OfType bools words.now entry }
    ensures { (book : Bytes) → entry_value book words.now entry ≡ bool result }
{
    word_of(words, entry, 2) == 1
}

// One of the three words of an entry.
fn word_of(words: &[u32], entry: usize, i: usize) -> u32
    requires { Room words.now entry × (i ≤ 2) }
    ensures { result ≡ word_at words.now (entries + 3 * entry + i) }
{
    words[ENTRIES + ENTRY_WORDS * entry + i]
}
