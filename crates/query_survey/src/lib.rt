// What a piece of a query adds to the survey of its faults: names among the pieces before, what a book declares, and what is left of each limit.
#![tactic(auto)]

pub mod conditions;
pub mod declared;
pub mod links;
pub mod scan;
pub mod table;
pub mod tallies;

use model::Part;

// The kinds of names in pieces: a vertex, an edge variable, a returned name.
#[derive(Clone, Copy)]
pub enum Which {
    Vertex,
    Edge,
    Returned,
}

// What is known behind some pieces of a text: which of the faults 4, 5, 6 and 8 a piece showed, and how many more of each kind would pass a limit.
// Four tests beside five counts, each with a meaning of its own: no flag says whether another field stands.
#[derive(Clone, Copy)]
pub struct Survey {
    pub undeclared: bool,
    pub twice: bool,
    pub mistyped: bool,
    pub itself: bool,
    pub vertices: u32,
    pub edges: u32,
    pub exclusions: u32,
    pub requirements: u32,
    pub returns: u32,
}

// How many names each of the three tables lists: vertices, edge variables, returned names.
#[derive(Clone, Copy)]
pub struct Met {
    pub vertices: usize,
    pub edges: usize,
    pub returned: usize,
}

// What a book says of an attribute: whether it is declared, and whether with a type that has a relation and a value.
// Two tests and no Option of the second: each fault asks for one of them alone, of a vertex and of an edge.
#[derive(Clone, Copy)]
pub struct AttrSeen {
    pub known: bool,
    pub typed: bool,
}
