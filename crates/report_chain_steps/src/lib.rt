// What a listed step says, and what one step takes off what is still to be read.
#![tactic(auto)]

pub mod constructs;
pub mod counts;
pub mod fields;
pub mod parts;
pub mod stack;
pub mod words;

// What is still to be read, as rows 1 to `depth` of a stack; what comes behind it, 0 nothing, else 1 + the construct that it follows; how many bits
// of a window are wanted from here on, and their number.
#[derive(Clone, Copy)]
pub struct Place {
    pub depth: usize,
    pub rest: usize,
    pub left: usize,
    pub seen: usize,
}

// Where what was read is no chain.
pub const NO_DEPTH: usize = 1024;
