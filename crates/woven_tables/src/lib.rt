// The woven pattern in words: its tables, and storing the parts of one text's pattern in them.
#![tactic(auto)]

pub mod clauses;
pub mod edges;
pub mod names;
pub mod reading;
pub mod returns;
pub mod vertices;

// How many of each the woven pattern has.
#[derive(Clone, Copy)]
pub struct WovenCounts {
    pub vertices: usize,
    pub edges: usize,
    pub exclusions: usize,
    pub requirements: usize,
    pub returns: usize,
}

// The words of the tables, and where each table but that of the vertices begins. What a word says is set out in specs/Tables.antt.
pub const WOVEN_WORDS: usize = 512;

pub const EDGES: usize = 24;

pub const EDGE_NAMES: usize = 72;

pub const CLAUSES: usize = 120;

pub const RETURNS: usize = 408;

pub const IDENTITIES: usize = 412;

// The words of an exclusion or a requirement.
pub const CLAUSE_WORDS: usize = 3;

// All ones: "no node".
pub const NO_NODE: u32 = 4294967295;
