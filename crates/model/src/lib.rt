// Plain data that the services' answers are made of. What each means is set out in specs/Answers.antt.
#![tactic(auto)]

ghost use Rattle.std.specs.Prelude.{◌≡◌};

pub mod limits; // limits.rt: how much fits
pub mod refusal_numbers; // refusal_numbers.rt: the numbers of refusals and of texts

use crate::limits::{MAX_CONDITIONS, MAX_EDGES, MAX_IDENTITIES, MAX_RETURNS, MAX_VERTICES};

// A refusal: number, text and line, as the table of document 01 has them.
#[derive(Clone, Copy)]
pub struct Refusal {
    pub number: u32,
    pub text: u32,
    pub line: u32,
}

// The relations = <> < <= > >= in this order.
#[derive(Clone, Copy)]
pub enum Relation {
    Equal,
    Differs,
    Less,
    AtMost,
    Greater,
    AtLeast,
}

// A value: a whole number z kept as z + 2^63, a text by its start and its length in the text it stands in, or a truth value.
#[derive(Clone, Copy)]
pub enum Value {
    Number(u64),
    Text(usize, usize),
    Truth(bool),
}

// What an attribute, by its number among the declared ones, must be.
#[derive(Clone, Copy)]
pub struct Requirement {
    pub attribute: usize,
    pub relation: Relation,
    pub value: Value,
}

// Where a name stands in its text.
#[derive(Clone, Copy)]
pub struct Part {
    pub start: usize,
    pub length: usize,
}

// An edge of a pattern: its name, its label by number, the vertices it runs from and to.
#[derive(Clone, Copy)]
pub struct Edge {
    pub name: Part,
    pub label: usize,
    pub from: usize,
    pub to: usize,
}

// Two vertices that differ, or a requirement of a vertex or of an edge, each by its number.
#[derive(Clone, Copy)]
pub enum Condition {
    Excluded(usize, usize),
    OfVertex(usize, Requirement),
    OfEdge(usize, Requirement),
}

// A condition in its place.
#[derive(Clone, Copy)]
pub struct Clause {
    pub condition: Condition,
}

// How many of each a pattern has.
#[derive(Clone, Copy)]
pub struct Counts {
    pub vertices: usize,
    pub edges: usize,
    pub clauses: usize,
    pub returns: usize,
}

// A pattern: vertices by first appearance, edges and conditions in the order of the text, Return vertices by number.
#[derive(Clone, Copy)]
pub struct Pattern {
    pub vertices: [Part; MAX_VERTICES],
    pub edges: [Edge; MAX_EDGES],
    pub clauses: [Clause; MAX_CONDITIONS],
    pub returns: [usize; MAX_RETURNS],
    pub counts: Counts,
}

// An actor of the request, and the number of its node.
#[derive(Clone, Copy)]
pub struct Identity {
    pub actor: Part,
    pub node: usize,
}

// How large a book is: its counts of nodes, relationships and attribute entries.
#[derive(Clone, Copy)]
pub struct BookSize {
    pub nodes: usize,
    pub relationships: usize,
    pub entries: usize,
}

// How large rules are: their counts of categories and policies.
#[derive(Clone, Copy)]
pub struct RulesSize {
    pub categories: usize,
    pub policies: usize,
}

// What reading a query gives: the whole pattern, or a refusal beside an empty pattern.
// No Result: the clause `whole` of `service::read_query` says every slot beside a refusal too (`query_outcome` in specs/WholeAnswers.antt).
#[derive(Clone, Copy)]
pub struct QueryRead {
    pub verdict: Result<(), Refusal>,
    pub pattern: Pattern,
}

// What reading a request gives: the category's number and the identities, or a refusal beside none.
// No Result: the clause `whole` of `service::read_request` says every slot beside a refusal too (`told_request` in specs/RequestAnswer.antt).
#[derive(Clone, Copy)]
pub struct RequestRead {
    pub verdict: Result<(), Refusal>,
    pub category: usize,
    pub identities: [Identity; MAX_IDENTITIES],
    pub count: usize,
}

// How large a list is: the number of its rows, and the number of Return names that each row answers.
#[derive(Clone, Copy)]
pub struct RowsSize {
    pub rows: usize,
    pub width: usize,
}

// A refusal by its three numbers.
pub fn refused(number: u32, text: u32, line: u32) -> Refusal
    ensures { (result.number ≡ number) × (result.text ≡ text) × (result.line ≡ line) }
{
    Refusal { number, text, line }
}
