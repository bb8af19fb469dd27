// Reading rules: terminals, a cursor over them, and the words of what is read.
#![tactic(auto)]

pub mod reading;
pub mod terminals;
pub mod words;

// A token as the form of rules sees it: its code, where it stands, and a number's value.
#[derive(Clone, Copy)]
pub struct Terminal {
    pub code: usize,
    pub start: usize,
    pub end: usize,
    pub value: usize,
}

// The terminal that comes next, and how many nodes, terms, binders and rules there are. Code 0: reading has failed at `start`.
#[derive(Clone, Copy)]
pub struct Cursor {
    pub code: usize,
    pub start: usize,
    pub end: usize,
    pub value: usize,
    pub nodes: usize,
    pub terms: usize,
    pub binders: usize,
    pub rules: usize,
}
