// Figures of a table that the report goes by: who holds a construct and uses a rule, counts, lengths, where constructs begin, weights, cycles, which
// rules are reached, and cases that are never chosen. Each function is safe and ends for any words; what it finds is tried.
#![tactic(auto)]

pub mod cases;
pub mod counts;
pub mod cycles;
pub mod lengths;
pub mod literals;
pub mod reach;
mod remainders;
pub mod starts;
pub mod structure;
pub mod weights;
pub mod words;
