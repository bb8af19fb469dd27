// Cases of a switch that are never chosen, as far as conditions without variables say it.
use crate::counts::term_words;
use crate::structure::{next, parent_of, parts_from};
use table_layout::{CONSTRUCTS_AT, Construct, construct_at, word};

// Whether a condition holds, as far as it is known.
fn worked_out(table: &[u32], start: usize, end: usize) -> Option<bool> {
    let words = term_words(table);
    if term_evaluation::variables::has_variable(words, start, end) {
        return None;
    }
    let none = [0i64; 1];
    match term_evaluation::satisfied(words, start, end, &none[0..0]) {
        Ok(holds) => Some(holds),
        Err(_) => None,
    }
}

// The condition of case j; a default has none, and holds.
fn condition(table: &[u32], j: usize) -> Option<bool> {
    if 255 < j {
        return None;
    }
    let start = word(table, CONSTRUCTS_AT + 8 * j + 6);
    let end = word(table, CONSTRUCTS_AT + 8 * j + 7);
    if end <= start {
        return Some(true);
    }
    worked_out(table, start, end)
}

// The switch that construct j is a case of.
fn switch_of(table: &[u32], j: usize) -> Option<usize> {
    let p = parent_of(table, j)?;
    if matches!(construct_at(table, p), Construct::Switch { .. }) {
        return Some(p);
    }
    None
}

// Construct j is a case whose condition holds never.
pub fn never_holds(table: &[u32], j: usize) -> bool {
    switch_of(table, j).is_some() && condition(table, j) == Some(false)
}

// Construct j is a case, and one before it is chosen always.
pub fn always_before(table: &[u32], j: usize) -> bool {
    match switch_of(table, j) {
        Some(p) => parts_from(table, next(p), j).any(|at| condition(table, at) == Some(true)),
        None => false,
    }
}
