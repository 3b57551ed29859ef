// What is known behind an exclusion, a requirement and a returned name.
ghost use Rattle.std.specs.Prelude.{◌≡◌, not, ◌&&◌, take};
ghost use Rattle.model.specs.Names.{mem};
ghost use Rattle.model.specs.Book.{Book};
ghost use Rattle.model.specs.Answers.{name_at, relation_of, value_of};
ghost use Rattle.model.specs.QueryText.{differ, demand};
ghost use Rattle.model.specs.Grammar.{asks, returns};
ghost use Rattle.book_tables.specs.View.{book_at};
ghost use Rattle.book_tables.specs.Fits.{Fits};
ghost use Rattle.text.specs.Parts.{HasPart};
ghost use Rattle.names_met.specs.Table.{Holds};
ghost use Rattle.query_pieces.specs.Steps.{DemandInside};
ghost use Rattle.query_survey.specs.Names.{Pieces, names_in, text_pieces};
ghost use Rattle.query_survey.specs.declared.Which.TheVariants.{Vertex, Returned};
ghost use Rattle.query_survey.specs.Known.{Known};
ghost use Rattle.query_survey.specs.Survey.{surveyed};

use crate::{Met, Survey, Which, declared, scan, table, tallies};
use book_tables::{BookCounts, Owner};
use model::Part;
use query_pieces::Demand;

// Whether one of two names stands as a vertex in none of the i pieces before.
fn is_unknown_pair(s: &[u8], table: &[u32], n: usize, i: usize, v: Part, u: Part) -> bool
    requires { Holds s.now table.now n (names_in Vertex (take i (text_pieces s.now))) × HasPart s.now v × HasPart s.now u }
    ensures { result ≡ not (mem (name_at s.now v) (names_in Vertex (take i (text_pieces s.now)))
        && mem (name_at s.now u) (names_in Vertex (take i (text_pieces s.now)))) }
{
    if table::stands_before(s, table, n, i, Which::Vertex, v) {
        return !table::stands_before(s, table, n, i, Which::Vertex, u);
    }
    true
}

// Behind v <> u.
pub fn differ_seen(
    s: &[u8],
    vertices: &[u32],
    edges: &[u32],
    met: Met,
    i: usize,
    t: Survey,
    v: Part,
    u: Part,
) -> Survey
    requires { Known s.now vertices.now edges.now met (take i (text_pieces s.now)) × HasPart s.now v × HasPart s.now u }
    ensures { (b : Book) (rest : Pieces)
        → result ≡ surveyed b (take i (text_pieces s.now)) t (asks (differ (name_at s.now v) (name_at s.now u))) rest }
{
    let mut r = t;
    r.undeclared |= is_unknown_pair(s, vertices, met.vertices, i, v, u);
    r.itself |= scan::same_part(s, v, u);
    r.exclusions = t.exclusions.saturating_sub(1);
    r
}

// Behind x.attr REL value.
pub fn demand_seen(
    book: &[u8],
    words: &[u32],
    counts: BookCounts,
    s: &[u8],
    vertices: &[u32],
    edges: &[u32],
    met: Met,
    i: usize,
    t: Survey,
    d: Demand,
) -> Survey
    requires { Fits book.now words.now counts × Known s.now vertices.now edges.now met (take i (text_pieces s.now))
        × DemandInside s.now d }
    ensures { (rest : Pieces) → result ≡ surveyed (book_at book.now words.now counts) (take i (text_pieces s.now)) t
        (asks (demand (name_at s.now d.subject) (name_at s.now d.attribute) (relation_of d.relation)
        (value_of s.now d.value))) rest }
{
    let x = d.subject;
    let a = d.attribute;
    let vertex = table::stands_before(s, vertices, met.vertices, i, Which::Vertex, x);
    let edge = table::stands_before(s, edges, met.edges, i, Which::Edge, x);
    let of_vertex = declared::attr_seen(
        book,
        words,
        counts,
        Owner::Node,
        s,
        a,
        d.relation,
        d.value,
    );
    let of_edge = declared::attr_seen(
        book,
        words,
        counts,
        Owner::Relationship,
        s,
        a,
        d.relation,
        d.value,
    );
    let mut r = t;
    r.undeclared |= tallies::neither(vertex, of_vertex.known, edge, of_edge.known);
    r.mistyped |= tallies::neither(vertex, of_vertex.typed, edge, of_edge.typed);
    r.requirements = t.requirements.saturating_sub(1);
    r
}

// Behind a returned name.
pub fn return_seen(
    s: &[u8],
    vertices: &[u32],
    returned: &[u32],
    met: Met,
    i: usize,
    t: Survey,
    v: Part,
) -> Survey
    requires { Holds s.now vertices.now met.vertices (names_in Vertex (take i (text_pieces s.now)))
        × Holds s.now returned.now met.returned (names_in Returned (take i (text_pieces s.now))) × HasPart s.now v }
    ensures { (b : Book) (rest : Pieces) → result ≡ surveyed b (take i (text_pieces s.now)) t (returns (name_at s.now v)) rest }
{
    let mut r = t;
    r.undeclared |= !table::stands_before(s, vertices, met.vertices, i, Which::Vertex, v);
    r.twice = table::seen_before(s, returned, met.returned, i, Which::Returned, v, t.twice);
    r.returns = t.returns.saturating_sub(1);
    r
}
