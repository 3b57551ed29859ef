// The attribute entries of one line of a book: their faults, and their words.
#![tactic(auto)]

ghost use Rattle.std.specs.Prelude.{◌≡◌, true, ◌≤◌, ◌<◌, length};
ghost use Rattle.book_tables.specs.Layout.{book_words};
ghost use Rattle.book_entries.specs.Faults.{entry_fault, lower};
ghost use Rattle.book_entries.specs.Known.{EntryAsked, EntryAdded, EntryPutAsked, EntryPut};
ghost use Rattle.book_entries.specs.Likely.{likely_next};

use book_tables::stores::{ENTRY_TYPES, ENTRY_WORDS};
use book_tables::{BookCounts, ENTRIES};
use model::limits::{MAX_DECLARED, MAX_ENTRIES};
use model::refusal_numbers::{NOT_DECLARED, OTHER_TYPE, SECOND_TIME};
use model::{Part, Value};

// What is known after some entries of a line: their lowest fault if they have one, a bit for each attribute that stands among them, and how many they are.
#[derive(Clone, Copy)]
pub struct EntriesRead {
    pub fault: Option<u32>,
    pub seen: u32,
    pub count: usize,
}

// The fault of an entry whose attribute is declared, if it has one.
fn entry_fault(seen: bool, suited: bool) -> Option<u32>
    ensures { result ≡ entry_fault true seen suited }
{
    if seen {
        return Some(SECOND_TIME);
    }
    if suited {
        return None;
    }
    Some(OTHER_TYPE)
}

// The lower of two faults, if there are any.
fn lower_fault(fault: Option<u32>, other: Option<u32>) -> Option<u32>
    ensures { result ≡ lower fault other }
{
    match (fault, other) {
        (Some(n), Some(m)) => Some(n.min(m)),
        (Some(_), None) => fault,
        (None, _) => other,
    }
}

// Stores entry k of an attribute, if there is room for it.
fn put_entry(words: &mut [u32], k: usize, attribute: usize, value: Value)
    requires { EntryPutAsked words.old attribute value }
    ensures { EntryPut words.old k attribute value words.new }
{
    let said = book_tables::values::value_words(value);
    if k < MAX_ENTRIES {
        book_tables::stores::store_entry(
            words,
            k,
            (attribute * ENTRY_TYPES) as u32 + said.kind,
            said.first,
            said.second,
        );
    }
}

// Where the attribute of the next entry of a line likely stands among those declared: behind that of the entry before it, in most books; the first for a
// line's first entry.
fn likely_next(words: &[u32], from: usize, count: usize) -> usize
    requires { (book_words ≤ length words.now) × (from ≤ 2048) × (count ≤ 65536) }
    ensures { result ≡ likely_next words.now from count }
{
    if count == 0 {
        return 0;
    }
    let entry = from + count - 1;
    if MAX_ENTRIES <= entry {
        return 0;
    }
    words[ENTRIES + ENTRY_WORDS * entry] as usize / ENTRY_TYPES + 1
}

// What is known with one entry more, which is stored behind those before it.
pub fn add_entry(
    text: &[u8],
    words: &mut [u32],
    counts: BookCounts,
    offset: usize,
    declared: usize,
    name: Part,
    value: Value,
    known: EntriesRead,
) -> EntriesRead
    requires { EntryAsked text.now words.old counts offset declared name value known }
    ensures { EntryAdded text.now words.old words.new counts offset declared name value known result }
{
    let start = name.start;
    let end = start + name.length;
    let likely = likely_next(words, counts.entries, known.count);
    let attribute = book_tables::names::find_likely(
        text,
        words,
        offset,
        declared,
        likely,
        &text[start..end],
    );
    if declared <= attribute {
        return EntriesRead {
            fault: Some(NOT_DECLARED),
            seen: known.seen,
            count: known.count + 1,
        };
    }
    let kind = words[offset + MAX_DECLARED + attribute];
    let own = entry_fault(
        bits::has(known.seen, attribute),
        book_tables::values::of_kind(kind, value),
    );
    put_entry(words, counts.entries + known.count, attribute, value);
    EntriesRead {
        fault: lower_fault(known.fault, own),
        seen: bits::with(known.seen, attribute),
        count: known.count + 1,
    }
}
