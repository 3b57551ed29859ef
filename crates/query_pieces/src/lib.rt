// The pieces of a query text, read one after another: Match (v), -[e:id]->(v), <-[e:id]-(v), a condition, a returned name.
#![tactic(auto)]

pub mod parts;
pub mod reading;
pub mod spots;

use model::{Part, Relation, Value};

// Where a piece may stand: at the beginning, behind a chain, behind a condition, behind a returned name.
#[derive(Clone, Copy)]
pub enum Spot {
    AtStart,
    InChain,
    InWhere,
    InReturn,
}

// A place of the text between two pieces; close: a word or a number ends just before it.
#[derive(Clone, Copy)]
pub struct Place {
    pub at: usize,
    pub close: bool,
    pub spot: Spot,
}

// An edge variable, its label, and the vertex behind it.
#[derive(Clone, Copy)]
pub struct Link {
    pub edge: Part,
    pub label: Part,
    pub vertex: Part,
}

// A variable, the attribute that is asked of it, the relation and the value.
#[derive(Clone, Copy)]
pub struct Demand {
    pub subject: Part,
    pub attribute: Part,
    pub relation: Relation,
    pub value: Value,
}

// A piece of the text. Of a link it is told whether it points to its own vertex or to the one before.
#[derive(Clone, Copy)]
pub enum Piece {
    Start(Part),
    Linked(bool, Link),
    Differ(Part, Part),
    Asks(Demand),
    Returns(Part),
}

// A piece, and the place behind it.
#[derive(Clone, Copy)]
pub struct Step {
    pub piece: Piece,
    pub next: Place,
}
