// Lists of names in a line of the rules or of a request, read by places.
#![tactic(auto)]

pub mod places;
pub mod scans;
