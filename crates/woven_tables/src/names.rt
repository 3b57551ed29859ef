// Names of woven vertices: the words that say where one stands, and comparing them.
ghost use Rattle.std.specs.Prelude.{◌≡◌, ◌+◌, ◌*◌, ◌/◌, ◌<◌, ◌≤◌};
ghost use lib.ListN.{length};
ghost use Rattle.model.specs.Bytes.{same};
ghost use Rattle.model.specs.Choice.{pick};
ghost use Rattle.model.specs.Names.{mem};
ghost use Rattle.model.specs.Weave.{same_vertex, place_vertex, weave_vertex};
ghost use Rattle.model.specs.Answers.{part_of};
ghost use Rattle.woven_tables.specs.Tables.{text_of, name_of, NameInside, ActorsInside, VerticesInside, vertex_of_word, actors_at, vertices_at};

use book_tables::names::NAME_LENGTHS;
use compare::same_bytes;
use model::Part;
use text::parts::part_of;

// A name word is (text's number * NAME_STARTS + start) * NAME_LENGTHS + length.
const NAME_STARTS: usize = 65536;

// The words that names of one text have.
const TEXT_NAMES: usize = 2097152;

const KIND_NAMES: u32 = TEXT_NAMES as u32;

// A vertex word is twice the word of its name, and one more for an actor vertex.
pub const VERTEX_KINDS: u32 = 2;

// The word of a name of the kth text.
pub fn name_word(k: usize, start: usize, length: usize) -> u32
    requires { (k < 32) × (start < 65536) × (length < 32) }
    ensures { result ≡ (k * 65536 + start) * 32 + length }
{
    ((k * NAME_STARTS + start) * NAME_LENGTHS + length) as u32
}

// The word of a vertex, by that of its name.
fn vertex_word(name: u32, actor: bool) -> u32
    requires { name < 67108864 }
    ensures { result ≡ name * 2 + pick actor 1 0 }
{
    if actor {
        name * VERTEX_KINDS + 1
    } else {
        name * VERTEX_KINDS
    }
}

// A name word says that name.
pub fn says(query: &[u8], rules: &[u8], word: u32, name: &[u8]) -> bool
    requires { NameInside query.now rules.now word }
    ensures { result ≡ same (name_of query.now rules.now word) name.now }
{
    let w = word as usize;
    let part = Part {
        start: w / NAME_LENGTHS % NAME_STARTS,
        length: w % NAME_LENGTHS,
    };
    if w / TEXT_NAMES == 0 {
        return same_bytes(part_of(query, part), name);
    }
    same_bytes(part_of(rules, part), name)
}

// Two name words say the same name.
fn say_the_same(query: &[u8], rules: &[u8], a: u32, b: u32) -> bool
    requires { NameInside query.now rules.now a × NameInside query.now rules.now b }
    ensures { result ≡ same (name_of query.now rules.now a) (name_of query.now rules.now b) }
{
    let w = b as usize;
    let part = Part {
        start: w / NAME_LENGTHS % NAME_STARTS,
        length: w % NAME_LENGTHS,
    };
    if w / TEXT_NAMES == 0 {
        return says(query, rules, a, part_of(query, part));
    }
    says(query, rules, a, part_of(rules, part))
}

// Two woven vertices are the same: both are actor vertices, or both own vertices of one text, and their names are the same.
fn same_vertex(query: &[u8], rules: &[u8], a: u32, b: u32) -> bool
    requires { NameInside query.now rules.now (a / 2) × NameInside query.now rules.now (b / 2) }
    ensures { result ≡ same_vertex (vertex_of_word query.now rules.now a) (vertex_of_word query.now rules.now b) }
{
    let name_a = a / VERTEX_KINDS;
    let name_b = b / VERTEX_KINDS;
    if a % VERTEX_KINDS == 1 {
        if b % VERTEX_KINDS == 1 {
            return say_the_same(query, rules, name_a, name_b);
        }
        return false;
    }
    if b % VERTEX_KINDS == 1 {
        return false;
    }
    if name_a / KIND_NAMES == name_b / KIND_NAMES {
        return say_the_same(query, rules, name_a, name_b);
    }
    false
}

// A name is one of the actors, which are names in the rules.
fn is_actor(query: &[u8], rules: &[u8], actors: &[u32], count: usize, word: u32) -> bool
    requires { (count ≤ length actors.now) × ActorsInside rules.now actors.now count × NameInside query.now rules.now word }
    ensures { result ≡ mem (name_of query.now rules.now word) (actors_at rules.now actors.now count) }
{
    for i in 0..count {
        let w = actors[i] as usize;
        let actor = Part {
            start: w / NAME_LENGTHS,
            length: w % NAME_LENGTHS,
        };
        if says(query, rules, word, part_of(rules, actor)) {
            return true;
        }
    }
    false
}

// The word of a vertex of the kth text: an actor vertex if its name is an actor of the text's own category.
pub fn vertex_of(
    query: &[u8],
    rules: &[u8],
    actors: &[u32],
    count: usize,
    k: usize,
    start: usize,
    length: usize,
) -> u32
    requires { (count ≤ lib.ListN.length actors.now) × (k < 32) × (start < 65536) × (length < 32) × ActorsInside rules.now actors.now count
        × (start + length ≤ lib.ListN.length (text_of query.now rules.now k)) }
    ensures inside { NameInside query.now rules.now (result / 2) }
    ensures says { vertex_of_word query.now rules.now result
        ≡ weave_vertex k (actors_at rules.now actors.now count)
        (part_of (text_of query.now rules.now k) start length) }
{
    let name = name_word(k, start, length);
    vertex_word(name, is_actor(query, rules, actors, count, name))
}

// The number of a vertex among the woven ones, or how many there are where it is none of them.
pub fn find_vertex(query: &[u8], rules: &[u8], words: &[u32], count: usize, word: u32) -> usize
    requires { (count ≤ length words.now) × VerticesInside query.now rules.now words.now count × NameInside query.now rules.now (word / 2) }
    ensures { result ≡ place_vertex (vertex_of_word query.now rules.now word)
        (vertices_at query.now rules.now words.now count) }
{
    for i in 0..count {
        if same_vertex(query, rules, word, words[i]) {
            return i;
        }
    }
    count
}
