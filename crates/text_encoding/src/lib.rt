// The words of a table from what is read.
#![tactic(auto)]

pub mod areas;
mod constructs;
pub mod numbers;
mod put;
