// An example of a clash: the bits of a short frame up to a place, where all that comes before it can be said without variables and switches. Each function
// is safe and ends for any words; what is printed of it is tried.
#![tactic(auto)]

mod least;
mod paths;
pub mod plain;
pub mod prefix;
mod writing;
