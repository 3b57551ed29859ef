// Putting the attributes of a node or a relationship with their values, in the order in which the attributes are declared.
ghost use Rattle.model.specs.Writing.{value_text};
ghost use Rattle.book_lookup.specs.Entries.{entry_value};
ghost use Rattle.book_lookup.specs.Ready.{EntryReady};
ghost use Rattle.putting.specs.Putting.{Puts};
ghost use Rattle.tidy_text.specs.Pieces.{slot_piece, entries_text};
ghost use Rattle.tidy_text.specs.Inside.{SlotInside, EntriesInside};

use book_lookup::entries::ENTRY_COUNTS;
use book_lookup::values::{kind_of, number_of, text_of, truth_of};
use book_tables::values::{INT, STR};
use putting::{bytes, values};

// Puts the entries that an owner's word says, of attributes declared at an offset, in the order of the declarations.
pub fn put_entries(
    book: &[u8],
    words: &[u32],
    offset: usize,
    declared: usize,
    owner: u32,
    out: &mut [u8],
    at: usize,
) -> usize
    requires { EntriesInside book.now words.now offset declared owner }
    ensures { Puts out.old at (entries_text book.now words.now offset owner declared) out.new result }
{
    if owner % ENTRY_COUNTS == 0 {
        return at;
    }
    let slots = entry_order::entry_slots(words, owner);
    let mut next = at;
    for attribute in 0..declared {
        next = put_entry(book, words, offset, attribute, slots[attribute], out, next);
    }
    next
}

// Puts (ATTR VALUE) behind a space, for the entry of an attribute's slot; nothing for an empty slot.
fn put_entry(
    book: &[u8],
    words: &[u32],
    offset: usize,
    attribute: usize,
    slot: u32,
    out: &mut [u8],
    at: usize,
) -> usize
    requires { SlotInside book.now words.now offset attribute slot }
    ensures { Puts out.old at (slot_piece book.now words.now offset attribute slot) out.new result }
{
    if slot == 0 {
        return at;
    }
    let entry = (slot - 1) as usize;
    let at = bytes::put_bytes(b" (", out, at);
    let at = bytes::put_declared(book, words, offset, attribute, out, at);
    let at = bytes::put_bytes(b" ", out, at);
    let at = put_value(book, words, entry, out, at);
    bytes::put_bytes(b")", out, at)
}

// Puts the value of an entry.
fn put_value(book: &[u8], words: &[u32], entry: usize, out: &mut [u8], at: usize) -> usize
    requires { EntryReady book.now words.now entry }
    ensures { Puts out.old at (value_text (entry_value book.now words.now entry)) out.new result }
{
    let kind = kind_of(words, entry);
    if kind == INT {
        return values::put_whole(number_of(words, entry), out, at);
    }
    if kind == STR {
        let text = text_of(book, words, entry);
        return values::put_quoted(text, 0, text.len(), out, at);
    }
    values::put_truth(truth_of(words, entry), out, at)
}
