// A node's name with `_b` at its end, and whether it is free.
ghost use Rattle.std.specs.Prelude.{◌≡◌, ◌++◌, ◌+◌, ◌<◌, ◌≤◌, length, take};
ghost use Rattle.model.specs.Book.{node_names};
ghost use Rattle.model.specs.Renaming.{suffix};
ghost use Rattle.book_tables.specs.View.{book_at};
ghost use Rattle.book_tables.specs.Fits.{Fits};
ghost use Rattle.later_names.specs.Later.{is_taken};

use book_lookup::names::node_name;
use book_tables::names::find_alike;
use book_tables::{BookCounts, NameRule};
use model::limits::MAX_WORD_BYTES;

// How many bytes are put behind a name: `_b`.
pub const SUFFIX_BYTES: usize = 2;

// Whether a node's new name is too long, or, case aside, that of a node.
pub fn is_taken(text: &[u8], words: &[u32], counts: BookCounts, node: usize) -> bool
    requires { Fits text.now words.now counts × (node < counts.nodes) }
    ensures { result ≡ is_taken (node_names (book_at text.now words.now counts)) node }
{
    let name = node_name(text, words, node);
    let size = name.len() + SUFFIX_BYTES;
    if MAX_WORD_BYTES < size {
        return true;
    }
    let longer = with_suffix(name);
    find_alike(text, words, counts, NameRule::AnyCase, &longer[..size]) < counts.nodes
}

// A name with `_b` at its end, and zeros.
fn with_suffix(name: &[u8]) -> [u8; 24]
    requires { length name.now + 2 ≤ 24 }
    ensures { take (length name.now + 2) result ≡ name.now ++ suffix }
{
    let mut longer = [0u8; 24];
    let size = name.len();
    longer[..size].copy_from_slice(name);
    longer[size] = b'_';
    longer[size + 1] = b'b';
    longer
}
