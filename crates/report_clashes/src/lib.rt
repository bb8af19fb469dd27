// Refusals 9 and 10 as a clerk reads them: how a body takes no bits; what two sides of a clash share, why, and what to change.
#![tactic(auto)]

mod changes;
pub mod clashes;
pub mod empty;
mod examples;
mod others;
mod rewriting;
mod sides;
