// Parts, names and brackets of a text as the report quotes them, and windows.
#![tactic(auto)]

pub mod brackets;
pub mod nearest;
pub mod prefixes;
pub mod quoting;
pub mod variables;
pub mod windows;
