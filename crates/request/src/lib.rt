// The request: the form of its one line, its faults, and its identities as plain data.
#![tactic(auto)]

pub mod claims;
pub mod faults;
pub mod forms;
pub mod read;
pub mod stores;

use model::Identity;
use model::limits::MAX_IDENTITIES;

// The identities of a line, of which so many are counted.
#[derive(Clone, Copy)]
pub struct Identities {
    pub list: [Identity; MAX_IDENTITIES],
    pub count: usize,
}
