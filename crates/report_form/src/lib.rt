// What is wrong with the form of rules (4), in sentences for a clerk: what may stand there, what a literal lacks, slips by name.
#![tactic(auto)]

mod expected;
pub mod form;
mod literals;
mod slips;
