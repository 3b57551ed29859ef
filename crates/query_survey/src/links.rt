// What is known behind a vertex, and behind an edge with its vertex.
ghost use Rattle.std.specs.Prelude.{◌≡◌, [], ◌∷◌, ◌++◌, true, not, ◌||◌, ◌-◌, take};
ghost use Rattle.model.specs.Choice.{pick};
ghost use Rattle.model.specs.Names.{mem};
ghost use Rattle.model.specs.Book.{Book};
ghost use Rattle.model.specs.Answers.{name_at};
ghost use Rattle.model.specs.Grammar.{start, goes, comes};
ghost use Rattle.book_tables.specs.View.{book_at};
ghost use Rattle.book_tables.specs.Fits.{Fits};
ghost use Rattle.text.specs.Parts.{HasPart};
ghost use Rattle.names_met.specs.Table.{Holds};
ghost use Rattle.query_pieces.specs.Steps.{LinkInside};
ghost use Rattle.query_survey.specs.Names.{Pieces, names_in, text_pieces};
ghost use Rattle.query_survey.specs.declared.Which.TheVariants.{Vertex, Edge};
ghost use Rattle.query_survey.specs.Known.{Known};
ghost use Rattle.query_survey.specs.Survey.{surveyed};

use crate::{Met, Survey, Which, declared, scan, table, tallies};
use book_tables::BookCounts;
use model::Part;
use query_pieces::Link;

// What is left of the vertices behind one more: one less if it stands in none of the i pieces before.
fn vertices_left(s: &[u8], table: &[u32], n: usize, i: usize, name: Part, left: u32) -> u32
    requires { Holds s.now table.now n (names_in Vertex (take i (text_pieces s.now))) × HasPart s.now name }
    ensures { result ≡ pick (not (mem (name_at s.now name) (names_in Vertex (take i (text_pieces s.now))))) (left - 1) left }
{
    if left == 0 {
        return 0;
    }
    if table::stands_before(s, table, n, i, Which::Vertex, name) {
        return left;
    }
    left - 1
}

// 5 at an edge, unless seen before: the edge variable stands before, as an edge or as a vertex, or the vertex is an edge variable.
fn link_twice(
    s: &[u8],
    vertices: &[u32],
    edges: &[u32],
    met: Met,
    i: usize,
    e: Part,
    v: Part,
    before: bool,
) -> bool
    requires { Known s.now vertices.now edges.now met (take i (text_pieces s.now)) × HasPart s.now e × HasPart s.now v }
    ensures { result ≡ pick (mem (name_at s.now e) (names_in Edge (take i (text_pieces s.now)))
        || mem (name_at s.now e) (names_in Vertex (take i (text_pieces s.now)))
        || mem (name_at s.now v) (names_in Edge (take i (text_pieces s.now)) ++ (name_at s.now e ∷ []))) true before }
{
    if before {
        return true;
    }
    if table::stands_before(s, edges, met.edges, i, Which::Edge, e) {
        return true;
    }
    if table::stands_before(s, vertices, met.vertices, i, Which::Vertex, e) {
        return true;
    }
    if table::stands_before(s, edges, met.edges, i, Which::Edge, v) {
        return true;
    }
    scan::same_part(s, v, e)
}

// Behind Match (v).
pub fn start_seen(
    s: &[u8],
    vertices: &[u32],
    edges: &[u32],
    met: Met,
    i: usize,
    t: Survey,
    v: Part,
) -> Survey
    requires { Known s.now vertices.now edges.now met (take i (text_pieces s.now)) × HasPart s.now v }
    ensures { (b : Book) (rest : Pieces) → result ≡ surveyed b (take i (text_pieces s.now)) t (start (name_at s.now v)) rest }
{
    let mut r = t;
    r.twice = table::seen_before(s, edges, met.edges, i, Which::Edge, v, t.twice);
    r.vertices = vertices_left(s, vertices, met.vertices, i, v, t.vertices);
    r
}

// Behind an edge with its vertex, whichever way it points.
pub fn link_seen(
    book: &[u8],
    words: &[u32],
    counts: BookCounts,
    s: &[u8],
    vertices: &[u32],
    edges: &[u32],
    met: Met,
    i: usize,
    t: Survey,
    l: Link,
) -> Survey
    requires { Fits book.now words.now counts × Known s.now vertices.now edges.now met (take i (text_pieces s.now))
        × LinkInside s.now l }
    ensures { (rest : Pieces) → (result ≡ surveyed (book_at book.now words.now counts) (take i (text_pieces s.now)) t
        (goes (name_at s.now l.edge) (name_at s.now l.label) (name_at s.now l.vertex)) rest)
        × (result ≡ surveyed (book_at book.now words.now counts) (take i (text_pieces s.now)) t
        (comes (name_at s.now l.edge) (name_at s.now l.label) (name_at s.now l.vertex)) rest) }
{
    let mut r = t;
    r.undeclared |= !declared::label_known(book, words, counts, s, l.label);
    r.twice = link_twice(s, vertices, edges, met, i, l.edge, l.vertex, t.twice);
    r.vertices = vertices_left(s, vertices, met.vertices, i, l.vertex, t.vertices);
    r.edges = t.edges.saturating_sub(1);
    r
}
