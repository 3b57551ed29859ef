// The conditions of a text by number: exclusions, and requirements of vertices and of edges.
ghost use Rattle.std.specs.Prelude.{◌≡◌};
ghost use Rattle.model.specs.Names.{place};
ghost use Rattle.model.specs.Book.{attr_names};
ghost use Rattle.model.specs.Answers.{name_at};
ghost use Rattle.model.specs.declared.Condition.TheVariants.{Excluded};
ghost use Rattle.book_tables.specs.View.{book_at};
ghost use Rattle.book_tables.specs.Fits.{Fits};
ghost use Rattle.book_tables.specs.Owners.{attrs_of};
ghost use Rattle.text.specs.Parts.{HasPart};
ghost use Rattle.query_pieces.specs.Steps.{DemandInside};
ghost use Rattle.query.specs.Vertices.{names_of, VerticesInside};
ghost use Rattle.query.specs.Edges.{edge_names_of, EdgesInside};
ghost use Rattle.query.specs.Clauses.{requirement_in, demand_in};

use crate::edges::Edges;
use crate::found::Found;
use crate::vertices::Vertices;
use crate::{edges, vertices};
use book_tables::{BookCounts, Owner, names};
use model::limits::MAX_CONDITIONS;
use model::{Clause, Condition, Part, Requirement};
use query_pieces::Demand;
use text::parts;

// The conditions found so far, in the order of the text.
pub type Clauses = Found<Clause, MAX_CONDITIONS>;

// A requirement of a vertex or of an edge, its attribute by number among those of the owner.
fn requirement_of(
    book: &[u8],
    words: &[u32],
    counts: BookCounts,
    owner: Owner,
    s: &[u8],
    d: Demand,
) -> Requirement
    requires { Fits book.now words.now counts × HasPart s.now d.attribute }
    ensures { result ≡ requirement_in (attr_names (attrs_of owner (book_at book.now words.now counts))) s.now d }
{
    let a = d.attribute;
    let attribute = names::find_attr(book, words, counts, owner, parts::part_of(s, a));
    let relation = d.relation;
    let value = d.value;
    Requirement {
        attribute,
        relation,
        value,
    }
}

// A requirement: of a vertex, if its variable is one of the vertices, else of an edge.
pub fn requirement(
    book: &[u8],
    words: &[u32],
    counts: BookCounts,
    s: &[u8],
    found: Vertices,
    links: Edges,
    d: Demand,
) -> Condition
    requires { Fits book.now words.now counts × VerticesInside s.now found × EdgesInside s.now links × DemandInside s.now d }
    ensures { result ≡ demand_in (book_at book.now words.now counts) s.now
        (names_of s.now found) (edge_names_of s.now links) d }
{
    let x = d.subject;
    let v = vertices::vertex_number(s, found, x);
    if v < found.count {
        let asked = requirement_of(book, words, counts, Owner::Node, s, d);
        return Condition::OfVertex(v, asked);
    }
    let e = edges::edge_number(s, links, x);
    let asked = requirement_of(book, words, counts, Owner::Relationship, s, d);
    Condition::OfEdge(e, asked)
}

// An exclusion: two vertices that differ.
pub fn exclusion(s: &[u8], found: Vertices, v: Part, u: Part) -> Condition
    requires { VerticesInside s.now found × HasPart s.now v × HasPart s.now u }
    ensures { result ≡ Excluded (place (name_at s.now v) (names_of s.now found))
        (place (name_at s.now u) (names_of s.now found)) }
{
    let from = vertices::vertex_number(s, found, v);
    let other = vertices::vertex_number(s, found, u);
    Condition::Excluded(from, other)
}
