// The words of the table of a text that is refused later than 8, for the report.
#![tactic(auto)]

pub mod tables;
