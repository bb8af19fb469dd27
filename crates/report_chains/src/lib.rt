// How a window comes about: the fields that spell it, in order, through rules and through what follows. What is listed is true by the rules of
// FIRST and FOLLOW: each choice is made where the bits that are left are among the strings of what is chosen and all that comes after it.
#![tactic(auto)]

mod choices;
mod constructs;
mod entries;
mod following;
pub mod machine;
pub mod strings;
mod uses;
