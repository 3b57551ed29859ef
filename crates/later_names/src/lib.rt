// The later names of a book that is in words by the very names: which nodes have one, whether each can have its new name, and how long the new text is.
#![tactic(auto)]

ghost use Rattle.std.specs.Prelude.{◌≡◌, ◌||◌, ◌<◌, ltb};
ghost use Rattle.model.specs.Book.{node_names};
ghost use Rattle.book_tables.specs.View.{book_at};
ghost use Rattle.book_tables.specs.Fits.{Fits};
ghost use Rattle.later_names.specs.Later.{later_marks, is_taken};
ghost use Rattle.later_names.specs.Ask.{ReadExactly, Answered};

use above::earlier_alike;
use book_tables::BookCounts;
use ends::count_ends;
use longer::{SUFFIX_BYTES, is_taken};
use model::limits::MAX_BOOK_BYTES;

mod above; // above.rt: the names above a node
mod ends; // ends.rt: how often each node is an end
mod longer; // longer.rt: a name with `_b`, and whether it is free

// Marks the nodes that have a later name: one that is, case aside, the name of a node above.
pub fn later_marks(text: &[u8], words: &[u32], counts: BookCounts) -> [bool; 256]
    requires { Fits text.now words.now counts }
    ensures { result ≡ later_marks (node_names (book_at text.now words.now counts)) }
{
    let mut marks = [false; 256];
    let nodes = counts.nodes;
    for node in 0..nodes {
        marks[node] = 0 < earlier_alike(text, words, counts, node);
    }
    marks
}

// The length of the text with all new names, if every later name can have its new one; else the first node whose name cannot.
pub fn new_names(text: &[u8], words: &[u32], counts: BookCounts) -> Result<usize, usize>
    requires { ReadExactly text.now words.now counts }
    ensures { Answered text.now (node_names (book_at text.now words.now counts)) counts.nodes result }
{
    let ends = count_ends(words, counts);
    let nodes = counts.nodes;
    let mut size = text.len();
    for node in 0..nodes {
        let above = earlier_alike(text, words, counts, node);
        if 0 < above {
            let longer = size + SUFFIX_BYTES * (1 + ends[node]);
            if is_stuck(text, words, counts, node, above, longer) {
                return Err(node);
            }
            size = longer;
        }
    }
    Ok(size)
}

// Whether a later name cannot have its new one: that was given above, is too long or another node's, or makes the text too long.
fn is_stuck(
    text: &[u8],
    words: &[u32],
    counts: BookCounts,
    node: usize,
    above: usize,
    longer: usize,
) -> bool
    requires { Fits text.now words.now counts × (node < counts.nodes) }
    ensures { result ≡ (ltb 1 above || ltb 65536 longer || is_taken (node_names (book_at text.now words.now counts)) node) }
{
    if 1 < above {
        return true;
    }
    if MAX_BOOK_BYTES < longer {
        return true;
    }
    is_taken(text, words, counts, node)
}
