// What is tied to an identity: the marked vertices, and those that a path of edges, either way along each, joins to one.
ghost use Rattle.std.specs.Prelude.{◌≤◌, length};
ghost use Rattle.woven_tables.specs.Tables.{woven_words};
ghost use Rattle.weave.specs.Identities.{EdgesLow, Stepped, TiedBy};

use crate::marks;
use woven_tables::EDGES;
use woven_tables::edges::FROM_UNIT;

// One step along all edges.
fn step(words: &[u32], edges: usize, mask: u32) -> u32
    requires { (edges ≤ 48) × (woven_words ≤ length words.now) × EdgesLow words.now edges 24 }
    ensures { Stepped words.now edges mask result }
{
    let mut next = mask;
    for i in 0..edges {
        let word = words[EDGES + i] as usize;
        let from = word / FROM_UNIT % FROM_UNIT;
        let to = word % FROM_UNIT;
        next = marks::mark_if(next, from, bits::has(mask, to));
        next = marks::mark_if(next, to, bits::has(mask, from));
    }
    next
}

// The vertices tied to a marked one: steps along all edges until nothing changes, at most as many as there are vertices.
pub fn tied(words: &[u32], vertices: usize, edges: usize, mask: u32) -> u32
    requires { (vertices ≤ 24) × (edges ≤ 48) × (woven_words ≤ length words.now) × EdgesLow words.now edges vertices }
    ensures { TiedBy words.now vertices edges mask result }
{
    let mut marked = mask;
    for round in 0..vertices {
        let next = step(words, edges, marked);
        if next == marked {
            return marked;
        }
        marked = next;
    }
    marked
}
