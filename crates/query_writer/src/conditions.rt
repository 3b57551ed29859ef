// Putting the conditions: Where before the first, AND between two, in the order of the text.
ghost use Rattle.std.specs.Prelude.{◌++◌};
ghost use Rattle.model.specs.Bytes.{bytes_of};
ghost use Rattle.model.specs.Answers.{name_at};
ghost use Rattle.putting.specs.Putting.{Puts};
ghost use Rattle.putting.specs.Listing.{before};
ghost use Rattle.query_writer.specs.Pieces.{requirement_piece, condition_piece, conditions_text};
ghost use Rattle.text.specs.Parts.{HasPart};
ghost use Rattle.query_writer.specs.Inside.{RequirementInside, ConditionInside, ClausesInside};

use crate::values;
use book_tables::{EATTR_NAMES, VATTR_NAMES};
use model::limits::{MAX_CONDITIONS, MAX_EDGES, MAX_VERTICES};
use model::{Clause, Condition, Edge, Part, Requirement};
use putting::bytes;

// Puts all conditions.
pub fn put_conditions(
    book: &[u8],
    words: &[u32],
    query: &[u8],
    vertices: [Part; MAX_VERTICES],
    edges: [Edge; MAX_EDGES],
    clauses: [Clause; MAX_CONDITIONS],
    count: usize,
    out: &mut [u8],
    at: usize,
) -> usize
    requires { ClausesInside book.now words.now query.now vertices edges clauses count }
    ensures { Puts out.old at (conditions_text book.now words.now query.now vertices edges clauses count)
        out.new result }
{
    let mut next = at;
    for i in 0..count {
        let clause = clauses[i];
        let condition = clause.condition;
        next = put_where(i, out, next);
        next = put_condition(book, words, query, vertices, edges, condition, out, next);
    }
    next
}

// Puts Where before the first condition, AND before another.
fn put_where(i: usize, out: &mut [u8], at: usize) -> usize
    ensures { Puts out.old at (before (bytes_of " Where ") (bytes_of " AND ") i) out.new result }
{
    bytes::put_before(i, b" Where ", b" AND ", out, at)
}

// Puts a condition.
fn put_condition(
    book: &[u8],
    words: &[u32],
    query: &[u8],
    vertices: [Part; MAX_VERTICES],
    edges: [Edge; MAX_EDGES],
    condition: Condition,
    out: &mut [u8],
    at: usize,
) -> usize
    requires { ConditionInside book.now words.now query.now vertices edges condition }
    ensures { Puts out.old at (condition_piece book.now words.now query.now vertices edges condition)
        out.new result }
{
    match condition {
        Condition::Excluded(u, v) => put_exclusion(query, vertices[u], vertices[v], out, at),
        Condition::OfVertex(v, requirement) => {
            put_requirement(
                book,
                words,
                query,
                vertices[v],
                VATTR_NAMES,
                requirement,
                out,
                at,
            )
        }
        Condition::OfEdge(e, requirement) => {
            let edge = edges[e];
            let name = edge.name;
            put_requirement(book, words, query, name, EATTR_NAMES, requirement, out, at)
        }
    }
}

// Puts that two vertices differ.
fn put_exclusion(query: &[u8], first: Part, second: Part, out: &mut [u8], at: usize) -> usize
    requires { HasPart query.now first × HasPart query.now second }
    ensures { Puts out.old at (name_at query.now first ++ bytes_of " <> " ++ name_at query.now second)
        out.new result }
{
    let at = bytes::put_part(query, first, out, at);
    let at = bytes::put_bytes(b" <> ", out, at);
    bytes::put_part(query, second, out, at)
}

// Puts what an attribute, one of those declared at an offset, must be.
fn put_requirement(
    book: &[u8],
    words: &[u32],
    query: &[u8],
    owner: Part,
    offset: usize,
    requirement: Requirement,
    out: &mut [u8],
    at: usize,
) -> usize
    requires { HasPart query.now owner × RequirementInside book.now words.now query.now offset requirement }
    ensures { Puts out.old at
        (requirement_piece book.now words.now query.now offset (name_at query.now owner) requirement)
        out.new result }
{
    let relation = requirement.relation;
    let value = requirement.value;
    let at = bytes::put_part(query, owner, out, at);
    let at = bytes::put_bytes(b".", out, at);
    let at = bytes::put_declared(book, words, offset, requirement.attribute, out, at);
    let at = bytes::put_bytes(b" ", out, at);
    let at = values::put_relation(relation, out, at);
    let at = bytes::put_bytes(b" ", out, at);
    values::put_value(query, value, out, at)
}
