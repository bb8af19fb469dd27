// Lookahead sets in slices that a caller lends: families of sets as u64 words, and single sets as u32 words, as a table has them.
#![tactic(auto)]

pub mod family;
pub mod narrow;
