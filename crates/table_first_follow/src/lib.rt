// The FIRST, FOLLOW and prediction sets of the grammar that a table's words hold. Any words may arrive: rules may reach themselves.
// A family is `SETS_HELD` sets of eight words: one for each construct, and one for the opening use of the start rule. Sets grow by rounds until
// nothing changes.
#![tactic(auto)]

use basis::MAX_CONSTRUCTS;

mod fields;
pub mod first;
mod follow;
mod order;
pub mod parts;
pub mod prediction;
mod rules;

pub const SETS_HELD: usize = MAX_CONSTRUCTS + 1;

pub const FAMILY_WORDS: usize = 8 * SETS_HELD;
