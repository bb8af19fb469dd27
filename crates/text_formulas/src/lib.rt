// Calculations, sets, counts in braces and conditions, as lists of terms.
#![tactic(auto)]

mod calculations;
pub mod conditions;
pub mod sets;
