// The entries of a node or of a relationship: which they are, and of which attribute each is.
ghost use Rattle.std.specs.Prelude.{◌≡◌, ◌+◌, ◌/◌, eqb};
ghost use Rattle.book_tables.specs.View.{word_at, entry_head};
ghost use Rattle.book_tables.specs.Owners.{tables_of};
ghost use Rattle.book_lookup.specs.Ready.{Room, OwnerReady};

use book_tables::stores::ENTRY_WORDS;
use book_tables::{BookCounts, ENTRIES, Owner, owners, stores};

// The units of an owner's entries and of an entry's first word, as wide as a word.
pub const ENTRY_COUNTS: u32 = stores::ENTRY_COUNTS as u32;

pub const ENTRY_TYPES: u32 = stores::ENTRY_TYPES as u32;

// The word that says which entries an owner has, by its number.
pub fn entries_of(words: &[u32], counts: BookCounts, owner: Owner, number: usize) -> u32
    requires { OwnerReady words.now counts owner number }
    ensures { result ≡ word_at words.now ((tables_of owner counts).entries + number) }
{
    let tables = owners::tables(counts, owner);
    let entries = tables.entries;
    words[entries + number]
}

// Whether an entry is of an attribute, by its number.
pub fn is_of(words: &[u32], entry: usize, attribute: usize) -> bool
    requires { Room words.now entry }
    ensures { result ≡ eqb (entry_head words.now entry / 4) attribute }
{
    let head = words[ENTRIES + ENTRY_WORDS * entry];
    (head / ENTRY_TYPES) as usize == attribute
}
