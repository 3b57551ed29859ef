// The pattern of a text that has no fault.
ghost use Rattle.std.specs.Prelude.{◌≡◌};
ghost use Rattle.book_tables.specs.View.{book_at};
ghost use Rattle.query.specs.PatternRead.{PatternAsked, PatternRead, pattern_made};
ghost use Rattle.model.specs.PlainData.{no_pattern};

use crate::clauses::Clauses;
use crate::edges::Edges;
use crate::found::Found;
use crate::vertices::Vertices;
use crate::{clauses, edges, vertices};
use book_tables::BookCounts;
use model::limits::{MAX_CONDITIONS, MAX_EDGES, MAX_RETURNS, MAX_VERTICES};
use model::{Clause, Condition, Counts, Edge, Part, Pattern};
use query_pieces::{Piece, Place, reading};
use query_survey::scan;

// The numbers of the returned vertices found so far, in the order of the text.
pub type Returns = Found<usize, MAX_RETURNS>;

// What stands in a place past the counts.
const NO_PART: Part = Part {
    start: 0,
    length: 0,
};

const NO_EDGE: Edge = Edge {
    name: NO_PART,
    label: 0,
    from: 0,
    to: 0,
};

const NO_CLAUSE: Clause = Clause {
    condition: Condition::Excluded(0, 0),
};

// The empty pattern.
pub fn empty() -> Pattern
    ensures { result ≡ no_pattern }
{
    made(
        Found::none(NO_PART),
        Found::none(NO_EDGE),
        Found::none(NO_CLAUSE),
        Found::none(0),
    )
}

// The pattern of what is found.
fn made(found: Vertices, links: Edges, conditions: Clauses, returned: Returns) -> Pattern
    ensures { result ≡ pattern_made found links conditions returned }
{
    let vertices = found.items;
    let edges = links.items;
    let clauses = conditions.items;
    let returns = returned.items;
    Pattern {
        vertices,
        edges,
        clauses,
        returns,
        counts: Counts {
            vertices: found.count,
            edges: links.count,
            clauses: conditions.count,
            returns: returned.count,
        },
    }
}

// The pattern of a text: vertices by first appearance, edges and conditions in its order, returned vertices.
// One walk over the pieces: what a piece names stands before it, so that its number is that among the names found so far.
pub fn pattern_of(book: &[u8], words: &[u32], counts: BookCounts, s: &[u8]) -> Pattern
    requires { PatternAsked book.now words.now counts s.now }
    ensures { PatternRead (book_at book.now words.now counts) counts s.now result }
{
    let mut place = scan::text_start();
    let mut last = 0;
    let mut found = Found::none(NO_PART);
    let mut links = Found::none(NO_EDGE);
    let mut conditions = Found::none(NO_CLAUSE);
    let mut returned = Found::none(0);
    loop {
        let Ok(x) = reading::next_piece(s, place) else {
            return made(found, links, conditions, returned);
        };
        let behind = x.next;
        // Field by field: as a whole it would be read before all of it is written.
        place = Place {
            at: behind.at,
            close: behind.close,
            spot: behind.spot,
        };
        match x.piece {
            Piece::Start(v) => {
                let own = vertices::vertex_number(s, found, v);
                found = vertices::with_vertex(found, own, v);
                last = own;
            }
            Piece::Linked(points, link) => {
                let v = link.vertex;
                let own = vertices::vertex_number(s, found, v);
                found = vertices::with_vertex(found, own, v);
                links.push(edges::edge_of(book, words, counts, s, link, points, last, own));
                last = own;
            }
            Piece::Differ(v, u) => {
                let condition = clauses::exclusion(s, found, v, u);
                conditions.push(Clause { condition });
            }
            Piece::Asks(d) => {
                let condition = clauses::requirement(book, words, counts, s, found, links, d);
                conditions.push(Clause { condition });
            }
            Piece::Returns(v) => returned.push(vertices::vertex_number(s, found, v)),
        }
    }
}
