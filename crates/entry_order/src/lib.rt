// The entries of a node or of a relationship by their attributes: one slot for each attribute that may be declared.
#![tactic(auto)]

ghost use Rattle.entry_order.specs.Slots.{Slotted, Slots};

use book_lookup::entries::{ENTRY_COUNTS, ENTRY_TYPES};
use book_tables::ENTRIES;
use book_tables::stores::ENTRY_WORDS;
use model::limits::MAX_DECLARED;

// For each attribute the first of an owner's entries that is of it: the entry's number and one, or 0 where there is none. The entries are walked from the
// last to the first, so that the first stays.
pub fn entry_slots(words: &[u32], owner: u32) -> [u32; MAX_DECLARED]
    requires { Slotted words.now owner }
    ensures { Slots words.now owner result }
{
    let start = (owner / ENTRY_COUNTS) as usize;
    let mut slots = [0u32; MAX_DECLARED];
    let count = (owner % ENTRY_COUNTS) as usize;
    for entry in (start..start + count).rev() {
        let attribute = (words[ENTRIES + ENTRY_WORDS * entry] / ENTRY_TYPES) as usize;
        slots[attribute] = (entry + 1) as u32;
    }
    slots
}
