// Limits and names of what is read: refusals 5 and 6.
#![tactic(auto)]

pub mod counting;
pub mod limits;
pub mod names;
pub mod places;
