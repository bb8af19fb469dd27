// Why the set of a uint or sint has no value left (13), item by item.
#![tactic(auto)]

mod calculations;
pub mod values;
