// The test of repeats: whether a label runs from one node to another already.
ghost use Rattle.std.specs.Prelude.{◌≡◌, ◌<◌};
ghost use Rattle.model.specs.ReadBook.{related};
ghost use Rattle.book_tables.specs.Layout.{label_names};
ghost use Rattle.book_tables.specs.View.{name_of, book_at};
ghost use Rattle.book_tables.specs.Fits.{Fits};

use crate::{BookCounts, FROM_HEADS, FROM_LINKS, RELATIONSHIPS};
use chains::walk;

// A relationship's word: label * 65536 + from * 256 + to.
pub const FROM_UNIT: usize = 256;

pub const LABEL_UNIT: usize = 65536;

// Whether the label of a number runs from one node to another.
pub fn is_related(
    text: &[u8],
    words: &[u32],
    counts: BookCounts,
    label: usize,
    from: usize,
    to: usize,
) -> bool
    requires { Fits text.now words.now counts × (label < counts.labels) × (from < counts.nodes) × (to < counts.nodes) }
    ensures { result ≡ related (book_at text.now words.now counts)
        (name_of text.now words.now label_names label) from to }
{
    let word = (label * LABEL_UNIT + from * FROM_UNIT + to) as u32;
    for i in walk::numbers(words, FROM_HEADS, FROM_LINKS, from) {
        if words[RELATIONSHIPS + i] == word {
            return true;
        }
    }
    false
}
