// What is read, as words: nodes of ten, terms of four, rules of five. Words are written (`stores`) and read (`words`) here alone, and others name
// them by these numbers.
#![tactic(auto)]

use basis::{MAX_CONSTRUCTS, MAX_RULES, MAX_TERMS};

pub mod stores;
pub mod words;

// How many words there are: a node for each construct, the terms, and one rule more than there may be, so that its place is known.
pub const NODES_ROOM: usize = 10 * MAX_CONSTRUCTS;

pub const TERMS_ROOM: usize = 4 * MAX_TERMS;

pub const RULES_KEPT: usize = MAX_RULES + 1;

pub const RULES_ROOM: usize = 5 * RULES_KEPT;

// A node: kind, size and place; three operands by its kind; the terms of its own; how it binds; the terms of its condition.
pub const KIND: usize = 0;

pub const SIZE: usize = 1;

pub const PLACE: usize = 2;

pub const MARK: usize = 3;

pub const LAST_PLACE: usize = 3;

pub const WIDTH_PLACE: usize = 3;

pub const BOUND_AT: usize = 4;

pub const MARK_PLACE: usize = 4;

pub const OWN_FROM: usize = 5;

pub const OWN_END: usize = 6;

pub const HOW_BOUND: usize = 7;

pub const CONDITION_FROM: usize = 8;

pub const CONDITION_END: usize = 9;

// A term.
pub const TAG: usize = 0;

pub const VALUE: usize = 1;

pub const TERM_PLACE: usize = 2;

pub const ORIGIN: usize = 3;

// A rule.
pub const NAMED_AT: usize = 0;

pub const FIRST_NODE: usize = 1;

pub const LAST_NODE: usize = 2;

pub const TERMS_AT_END: usize = 3;

pub const BINDERS_AT_END: usize = 4;
