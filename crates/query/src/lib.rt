// The query reader: from a loaded book and a text to the pattern by value, or to the lowest fault of the text.
#![tactic(auto)]

pub mod clauses;
pub mod edges;
pub mod found;
pub mod pattern;
pub mod read;
pub mod vertices;
