// Parts of a grammar as lines of the report: places, the steps of a chain, and the sets that a report goes by.
#![tactic(auto)]

pub mod chains;
pub mod places;
pub mod sets;
mod signs;
