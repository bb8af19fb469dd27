// Whether the numbers that were listed are a chain: they are read from the last to the first, each by its rule of FIRST or FOLLOW.
#![tactic(auto)]

pub mod chains;
mod replay;
mod rests;
mod starts;
