// The rules' lines: their forms, their faults, and what they add to the tables.
#![tactic(auto)]

pub mod categories;
pub mod forms;
pub mod load;
pub mod policies;
pub mod steps;
pub mod tests;

use model::Part;

// The form of a line, by places of the line. A category: where its name stands, and the places behind the heads of its actors and of those it is over.
// A policy: where its category's name stands, and the text between the quotes.
#[derive(Clone, Copy)]
pub enum RulesForm {
    Category(Part, usize, usize),
    Policy(Part, Part),
}
