// Look-ups over a loaded book: the value of an entry, whether it meets a requirement, the test of a requirement in one pass over entries, and the name of
// a node.
#![tactic(auto)]

pub mod entries;
pub mod meeting;
pub mod names;
pub mod testing;
pub mod values;

// What the test of one requirement answers: whether it is met, and how many entries it looked at. No `Option`: the number stands for both.
#[derive(Clone, Copy)]
pub struct Tested {
    pub met: bool,
    pub looked: usize,
}
