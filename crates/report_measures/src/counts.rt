// How often a repetition's body may come.
ghost use Rattle.std.specs.Prelude.{◌≤◌};

use table_layout::{Construct, LITERALS_AT, Passes, TERMS_AT, construct_at};
use term_evaluation::Allowed;
use term_words::TermError;

// From `low` to `high` times, both at most 8: eight passes have at least 8 bits.
#[derive(Clone, Copy)]
pub struct Counts {
    pub low: usize,
    pub high: usize,
}

// The words of the terms.
pub fn term_words(table: &[u32]) -> &[u32] {
    let n = table.len();
    if n < TERMS_AT {
        return &table[n..n];
    }
    if n < LITERALS_AT {
        return &table[TERMS_AT..n];
    }
    &table[TERMS_AT..LITERALS_AT]
}

fn between(low: usize, high: usize) -> Counts {
    Counts { low, high }
}

fn capped(k: u64) -> usize
    ensures { result ≤ 8 }
{
    if k < 8 { k as usize } else { 8 }
}

fn sum(a: usize, b: usize) -> usize {
    if a <= 8 && b <= 8 - a {
        return a + b;
    }
    8
}

fn counted(counted: Result<Allowed, TermError>) -> Counts {
    match counted {
        Ok(Allowed::From { low }) => between(capped(low), 8),
        Ok(Allowed::Within { low, more }) => between(capped(low), sum(capped(low), capped(more))),
        _ => between(1, 0),
    }
}

fn listed(table: &[u32], start: usize, end: usize) -> Option<Counts> {
    let words = term_words(table);
    if term_evaluation::variables::has_variable(words, start, end) {
        return None;
    }
    let none = [0i64; 1];
    Some(counted(term_evaluation::counts::count(words, start, end, &none[0..0])))
}

// None where a variable is in the counts.
pub fn counts_of(table: &[u32], passes: Passes) -> Option<Counts> {
    match passes {
        Passes::Optional => Some(between(0, 1)),
        Passes::Any => Some(between(0, 8)),
        Passes::Some => Some(between(1, 8)),
        Passes::Counted { start, end } => listed(table, start, end),
    }
}

// Whether a uint's set, or a repetition's counts, use a variable.
pub fn varies(table: &[u32], i: usize) -> bool {
    match construct_at(table, i) {
        Construct::Repetition { passes, .. } => counts_of(table, passes).is_none(),
        Construct::Uint { start, end, .. } => {
            term_evaluation::variables::has_variable(term_words(table), start, end)
        }
        _ => false,
    }
}
