// The list that a head word begins.
ghost use Rattle.std.specs.Prelude.{◌≡◌};
ghost use Rattle.name_lists.specs.Names.{headed_at};

use item_forms::{LIST_DEPTH, pieces, places};
use text::parts;

// The place behind the head of the next item, if it is a list that begins with that word.
pub fn headed(s: &[u8], from: usize, head: &[u8]) -> Option<usize>
    ensures { result ≡ headed_at head.now s.now from }
{
    let i = pieces::open_list(s, from)?.item()?;
    let word = places::next_word(s, i, true, LIST_DEPTH)?;
    if compare::same_bytes(parts::part_of(s, word), head) {
        return Some(word.start + word.length);
    }
    None
}
