// Weaving the edges of one text: each is kept, behind those there, with the woven numbers of its vertices.
ghost use Rattle.std.specs.Prelude.{◌≡◌, ◌+◌, ◌*◌, ◌<◌, ◌≤◌, length};
ghost use Rattle.woven_tables.specs.Tables.{woven_words};
ghost use Rattle.woven_tables.specs.Steps.{EdgesReady, EdgesAdded};

use crate::{EDGE_NAMES, EDGES, names};
use model::Edge;
use model::limits::{MAX_EDGES, MAX_VERTICES};

// An edge word is label * LABEL_UNIT + from * FROM_UNIT + to, as a relationship's.
pub const LABEL_UNIT: usize = book_tables::relationships::LABEL_UNIT;

pub const FROM_UNIT: usize = book_tables::relationships::FROM_UNIT;

// The word of an edge.
fn edge_word(label: usize, from: usize, to: usize) -> u32
    requires { (label < 32) × (from < 24) × (to < 24) }
    ensures { result ≡ label * 65536 + from * 256 + to }
{
    (label * LABEL_UNIT + from * FROM_UNIT + to) as u32
}

// Weaves the edges of the kth text, whose names stand from a base on, and whose vertices have these numbers.
pub fn add_edges(
    k: usize,
    base: usize,
    edges: [Edge; MAX_EDGES],
    count: usize,
    numbers: [usize; MAX_VERTICES],
    words: &mut [u32],
    woven: usize,
)
    requires { EdgesReady base k edges count numbers woven × (woven_words ≤ length words.old) }
    ensures { EdgesAdded base k edges count numbers words.old words.new woven }
{
    for i in 0..count {
        let e = edges[i];
        let name = e.name;
        let from = e.from;
        let to = e.to;
        let at = woven + i;
        words[EDGES + at] = edge_word(e.label, numbers[from], numbers[to]);
        words[EDGE_NAMES + at] = names::name_word(k, base + name.start, name.length);
    }
}
