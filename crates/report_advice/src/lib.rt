// What the refusals mean and what to change, in sentences for a clerk.
#![tactic(auto)]

pub mod clashes;
pub mod header;
pub mod limits;
pub mod names;
pub mod rest;
pub mod titles;
pub mod unreached;
