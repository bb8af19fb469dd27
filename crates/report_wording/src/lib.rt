// What the report is written with: bytes and lines of a grammar's text, and a walk over its tokens.
#![tactic(auto)]

pub mod lines;
pub mod walking;
pub mod writing;
