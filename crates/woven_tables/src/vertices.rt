// Weaving the vertices of one text: actor vertices of one name are joined, all others kept apart.
ghost use Rattle.std.specs.Prelude.{◌/◌, ◌<◌, ◌≤◌, length, drop};
ghost use Rattle.woven_tables.specs.Tables.{text_of, NameInside, VerticesInside, actors_at, woven_words};
ghost use Rattle.woven_tables.specs.Steps.{VertexPlaced, VerticesReady, NamesStand, VerticesAdded, text_vertices};

use crate::names;
use model::Part;
use model::limits::{MAX_VERTICES, MAX_WOVEN_VERTICES};

// Where a vertex has its place, and how many vertices there are then: past the limit where there is no room.
#[derive(Clone, Copy)]
pub struct Placed {
    pub at: usize,
    pub count: usize,
}

// The woven numbers of a text's vertices, and how many vertices there are then: past the limit where there is no room.
#[derive(Clone, Copy)]
pub struct Numbers {
    pub numbers: [usize; MAX_VERTICES],
    pub count: usize,
}

// Gives a vertex its place among the woven ones.
fn place_vertex(query: &[u8], rules: &[u8], words: &mut [u32], n: usize, word: u32) -> Placed
    requires { (n ≤ 24) × (woven_words ≤ length words.old) × VerticesInside query.now rules.now words.old n
        × NameInside query.now rules.now (word / 2) }
    ensures { VertexPlaced query.now rules.now words.old words.new n word result }
{
    let at = names::find_vertex(query, rules, words, n, word);
    if at < n {
        return Placed { at, count: n };
    }
    if n < MAX_WOVEN_VERTICES {
        words[n] = word;
        return Placed { at, count: n + 1 };
    }
    Placed { at, count: n + 1 }
}

// Weaves the vertices of the kth text, whose names stand from a base on.
pub fn add_vertices(
    query: &[u8],
    rules: &[u8],
    actors: &[u32],
    actor_count: usize,
    k: usize,
    base: usize,
    parts: [Part; MAX_VERTICES],
    count: usize,
    words: &mut [u32],
    woven: usize,
) -> Numbers
    requires { VerticesReady base k parts count × (actor_count ≤ length actors.now) × (woven ≤ 24) × (woven_words ≤ length words.old)
        × NamesStand query.now rules.now actors.now actor_count words.old woven base k parts count }
    ensures { VerticesAdded query.now rules.now
        (text_vertices (drop base (text_of query.now rules.now k)) k
        (actors_at rules.now actors.now actor_count) parts count) count
        words.old words.new woven result }
{
    let mut numbers = [0usize; MAX_VERTICES];
    let mut n = woven;
    for i in 0..count {
        let p = parts[i];
        let word = names::vertex_of(
            query,
            rules,
            actors,
            actor_count,
            k,
            base + p.start,
            p.length,
        );
        let placed = place_vertex(query, rules, words, n, word);
        n = placed.count;
        if MAX_WOVEN_VERTICES < n {
            return Numbers { numbers, count: n };
        }
        numbers[i] = placed.at;
    }
    Numbers { numbers, count: n }
}
