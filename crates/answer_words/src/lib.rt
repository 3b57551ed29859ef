// What the readers of queries and requests answer, in words for other languages.
#![tactic(auto)]

pub mod conditions; // conditions.rt: the conditions of a pattern
pub mod identities; // identities.rt: the identities of a request
pub mod patterns; // patterns.rt: the vertices, the edges and the Return names of a pattern
pub mod rows; // rows.rt: rows of words
