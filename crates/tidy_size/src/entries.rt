// The sizes of entries, in the order in which their attributes are declared.
ghost use Rattle.std.specs.Prelude.{◌*◌, ◌<◌, ◌++◌, length};
ghost use Rattle.model.specs.Bytes.{bytes_of};
ghost use Rattle.model.specs.Tidy.{entry_text};
ghost use Rattle.tidy_size.specs.Pieces.{entry_at, entries_text};
ghost use Rattle.tidy_size.specs.Sizes.{Size, entry_most};
ghost use Rattle.tidy_size.specs.Ready.{EntryIn, OwnerIn, EntryShort, OwnerShort};

use crate::names::name_size;
use crate::values::value_size;
use book_lookup::entries::ENTRY_COUNTS;
use entry_order::entry_slots;

// ` ( )`: an entry without its name and its value, with the space before it.
const ENTRY_SIGNS: usize = 4;

// The size of an owner's entries, of attributes declared at an offset.
pub fn entries_size(words: &[u32], offset: usize, declared: usize, owner: u32) -> usize
    requires { OwnerShort words.now offset declared owner }
    ensures { Size (entry_most * declared) (OwnerIn words.now offset declared owner)
        (λ text. entries_text text words.now offset declared owner) result }
{
    if owner % ENTRY_COUNTS == 0 {
        return 0;
    }
    let slots = entry_slots(words, owner);
    let mut size: usize = 0;
    for attribute in 0..declared {
        let slot = slots[attribute] as usize;
        if 0 < slot {
            size += entry_size(words, offset + attribute, slot - 1);
        }
    }
    size
}

// The size of an entry, by the place of its name's word and by its number, with the space before it.
fn entry_size(words: &[u32], name: usize, entry: usize) -> usize
    requires { (name < length words.now) × EntryShort words.now entry }
    ensures { Size entry_most (EntryIn words.now name entry)
        (λ text. bytes_of " " ++ entry_text (entry_at text words.now name entry)) result }
{
    ENTRY_SIGNS + name_size(words, name) + value_size(words, entry)
}
