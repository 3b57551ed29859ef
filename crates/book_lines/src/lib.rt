// One line of a book: its form is read; then its faults are tested and it is added to the tables, by `book_steps`.
#![tactic(auto)]

pub mod forms;
pub mod owners;
pub mod pieces;

use book_tables::Owner;
use model::Part;

// The first word of a line; vattr and eattr by the owner of the attribute.
#[derive(Clone, Copy)]
pub enum Head {
    Attr(Owner),
    Label,
    Node,
    Rel,
    Other,
}

// The three names of a relationship's line by their places in the line, and the place behind them.
#[derive(Clone, Copy)]
pub struct RelNames {
    pub label: Part,
    pub from: Part,
    pub to: Part,
    pub end: usize,
}
