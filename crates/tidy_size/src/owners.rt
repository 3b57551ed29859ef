// The sizes of the lines of nodes and of relationships.
ghost use Rattle.std.specs.Prelude.{◌<◌};
ghost use Rattle.book_tables.specs.Fits.{Fits};
ghost use Rattle.tidy_size.specs.Pieces.{node_line, rel_line};
ghost use Rattle.tidy_size.specs.Sizes.{LineSize, LinesSize};
ghost use Rattle.tidy_size.specs.Ready.{SomeText};

use crate::entries::entries_size;
use crate::names::name_size;
use book_tables::relationships::{FROM_UNIT, LABEL_UNIT};
use book_tables::{
    BookCounts, EATTR_NAMES, LABEL_NAMES, NODE_ENTRIES, NODE_NAMES, RELATIONSHIP_ENTRIES,
    RELATIONSHIPS, VATTR_NAMES,
};

// `(node )` and a line feed; `(rel   )` and a line feed.
const NODE_LINE: usize = 8;

const REL_LINE: usize = 9;

// The size of the lines of all nodes. Tried as one function over a closure, with `rels_size`: its clause would range over what words say, which no clause can.
pub fn nodes_size(words: &[u32], counts: BookCounts) -> usize
    requires { SomeText words.now counts }
    ensures { LinesSize (λ text. Fits text words.now counts) (λ text. node_line counts text words.now) counts.nodes result }
{
    let nodes = counts.nodes;
    let mut size: usize = 0;
    for i in 0..nodes {
        size += node_size(words, counts, i);
    }
    size
}

// The size of a node's line.
fn node_size(words: &[u32], counts: BookCounts, i: usize) -> usize
    requires { SomeText words.now counts × (i < counts.nodes) }
    ensures { LineSize (λ text. Fits text words.now counts) (λ text. node_line counts text words.now i) result }
{
    let entries = entries_size(words, VATTR_NAMES, counts.vattrs, words[NODE_ENTRIES + i]);
    NODE_LINE + name_size(words, NODE_NAMES + i) + entries
}

// The size of the lines of all relationships.
pub fn rels_size(words: &[u32], counts: BookCounts) -> usize
    requires { SomeText words.now counts }
    ensures { LinesSize (λ text. Fits text words.now counts) (λ text. rel_line counts text words.now) counts.relationships result }
{
    let relationships = counts.relationships;
    let mut size: usize = 0;
    for i in 0..relationships {
        size += rel_size(words, counts, i);
    }
    size
}

// The size of a relationship's line.
fn rel_size(words: &[u32], counts: BookCounts, i: usize) -> usize
    requires { SomeText words.now counts × (i < counts.relationships) }
    ensures { LineSize (λ text. Fits text words.now counts) (λ text. rel_line counts text words.now i) result }
{
    let word = words[RELATIONSHIPS + i] as usize;
    let label = name_size(words, LABEL_NAMES + word / LABEL_UNIT);
    let from = name_size(words, NODE_NAMES + word / FROM_UNIT % FROM_UNIT);
    let to = name_size(words, NODE_NAMES + word % FROM_UNIT);
    let entries = entries_size(
        words,
        EATTR_NAMES,
        counts.eattrs,
        words[RELATIONSHIP_ENTRIES + i],
    );
    REL_LINE + label + from + to + entries
}
