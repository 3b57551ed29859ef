// The signs of a query text, read one after another: words, numbers, text values, relation signs and marks.
#![tactic(auto)]

pub mod expected;
pub mod kinds;
pub mod marks;
pub mod reading;

use model::{Part, Relation, Value};

// A sign; a word and a text value by the place where they stand, a mark by its code.
#[derive(Clone, Copy)]
pub enum Sign {
    Word(Part),
    Whole(u64),
    Text(Part),
    Mark(usize),
}
