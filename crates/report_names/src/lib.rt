// The fields and variables of an admitted grammar by their names, as a C header.
#![tactic(auto)]

pub mod fields;
pub mod places;
pub mod printing;
pub mod spelling;

// A grammar that is admitted: its text, its table, where the names of its rules stand, and where its constructs do.
#[derive(Clone, Copy)]
pub struct Admitted<'a> {
    pub grammar: &'a [u8],
    pub table: &'a [u32],
    pub rules: &'a [usize],
    pub constructs: &'a [usize],
}
