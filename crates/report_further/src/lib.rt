// The first name at fault from a place on, for the report.
#![tactic(auto)]

pub mod further;
