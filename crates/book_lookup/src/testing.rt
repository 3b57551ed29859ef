// The test of one requirement: a single pass over the entries of a node or of a relationship, which ends at the attribute's own.
ghost use Rattle.std.specs.Prelude.{◌≡◌};
ghost use Rattle.model.specs.Graph.{in_relation, meets};
ghost use Rattle.model.specs.Answers.{relation_of, value_of};
ghost use Rattle.book_tables.specs.View.{start_part, count_part, book_at};
ghost use Rattle.book_tables.specs.Owners.{tables_of};
ghost use Rattle.book_lookup.specs.Entries.{seek, looked_for, entry_value, maybe_value, owner_value, owner_looked};
ghost use Rattle.book_lookup.specs.Ready.{EntryReady, EntriesReady, ValueInside, Asked};

use crate::Tested;
use crate::entries::{ENTRY_COUNTS, entries_of, is_of};
use crate::meeting::entry_meets;
use book_tables::{BookCounts, Owner};
use model::{Relation, Value};

// Whether an owner's attribute meets a requirement whose text value is part of `text`, and how many of the owner's entries were looked at for it. An absent
// attribute meets none.
pub fn owner_meets(
    book: &[u8],
    words: &[u32],
    counts: BookCounts,
    owner: Owner,
    number: usize,
    attribute: usize,
    relation: Relation,
    value: Value,
    text: &[u8],
) -> Tested
    requires { Asked book.now words.now counts number (tables_of owner counts).count attribute (tables_of owner counts).declared
        × ValueInside text.now value }
    ensures met { result.met ≡ meets (owner_value owner (book_at book.now words.now counts) number attribute) (relation_of relation)
        (value_of text.now value) }
    ensures looked { result.looked ≡ owner_looked owner (book_at book.now words.now counts) number attribute }
{
    let entries = entries_of(words, counts, owner, number);
    test_entries(book, words, entries, attribute, relation, value, text)
}

// The pass over the entries that a word says, two at a time: an entry of the attribute ends it, and what stands behind is not looked at.
fn test_entries(
    book: &[u8],
    words: &[u32],
    entries: u32,
    attribute: usize,
    relation: Relation,
    value: Value,
    text: &[u8],
) -> Tested
    requires { EntriesReady book.now words.now entries × ValueInside text.now value }
    ensures met { result.met ≡ meets (maybe_value book.now words.now (seek words.now attribute (start_part entries)
        (count_part entries))) (relation_of relation) (value_of text.now value) }
    ensures looked { result.looked ≡ looked_for (start_part entries) (count_part entries) (seek words.now attribute (start_part entries)
        (count_part entries)) }
{
    let start = (entries / ENTRY_COUNTS) as usize;
    let count = (entries % ENTRY_COUNTS) as usize;
    // Two at a time, counted by hand, since each node of a search is tested so: for speed.
    let mut i: usize = 0;
    while i + 1 < count {
        if is_of(words, start + i, attribute) {
            return test_own(book, words, start + i, i + 1, relation, value, text);
        }
        if is_of(words, start + i + 1, attribute) {
            return test_own(book, words, start + i + 1, i + 2, relation, value, text);
        }
        i += 2;
    }
    if i < count {
        if is_of(words, start + i, attribute) {
            return test_own(book, words, start + i, count, relation, value, text);
        }
    }
    Tested {
        met: false,
        looked: count,
    }
}

// The answer at the attribute's own entry, so many being looked at.
fn test_own(
    book: &[u8],
    words: &[u32],
    entry: usize,
    looked: usize,
    relation: Relation,
    value: Value,
    text: &[u8],
) -> Tested
    requires { EntryReady book.now words.now entry × ValueInside text.now value }
    ensures met { result.met ≡ in_relation (relation_of relation) (entry_value book.now words.now entry)
        (value_of text.now value) }
    ensures looked { result.looked ≡ looked }
{
    let met = entry_meets(book, words, entry, relation, value, text);
    Tested { met, looked }
}
