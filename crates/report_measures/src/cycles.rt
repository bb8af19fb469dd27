// How a rule reaches itself: the uses that lead from it back to it, by a shortest way.
use crate::structure::{body_of, rules};
use crate::words::{number_at, put_number};
use table_layout::{Construct, construct_at, size_of};

fn holds(table: &[u32], rule: usize, j: usize) -> bool {
    let body = body_of(table, rule);
    body <= j && j - body < size_of(construct_at(table, body))
}

// The rule that construct j lies in.
pub fn rule_around(table: &[u32], j: usize) -> Option<usize> {
    (0..rules(table)).find(|&k| holds(table, k, j))
}

// The rule that construct j uses.
pub fn used_by(table: &[u32], j: usize) -> Option<usize> {
    match construct_at(table, j) {
        Construct::Use { rule } if rule < 64 => Some(rule),
        _ => None,
    }
}

// How many uses lead from a rule back to `rule`, at least; 64 where none do.
fn way(ways: &[usize], rule: usize, from: usize) -> usize {
    if from == rule {
        return 0;
    }
    number_at(ways, from)
}

// The same by a use of the rule `used`.
fn way_by(ways: &[usize], rule: usize, used: usize) -> usize {
    let n = way(ways, rule, used);
    if n < 64 { n + 1 } else { 64 }
}

fn shorten(table: &[u32], ways: &mut [usize], rule: usize, j: usize) {
    // Few constructs are uses: only of one is it asked which rule it lies in.
    let Some(used) = used_by(table, j) else {
        return;
    };
    let Some(from) = rule_around(table, j) else {
        return;
    };
    let n = way_by(ways, rule, used);
    if n < number_at(ways, from) {
        put_number(ways, from, n);
    }
}

fn round(table: &[u32], ways: &mut [usize], rule: usize) {
    for j in 0..256 {
        shorten(table, ways, rule, j);
    }
}

fn rounds(table: &[u32], ways: &mut [usize], rule: usize) {
    for _n in 0..64 {
        round(table, ways, rule);
    }
}

fn leads(table: &[u32], ways: &[usize], rule: usize, from: usize, j: usize) -> bool {
    match used_by(table, j) {
        Some(used) => {
            rule_around(table, j) == Some(from) && way_by(ways, rule, used) == number_at(ways, from)
        }
        None => false,
    }
}

// The first use in the rule `from` that is on a shortest way.
fn step(table: &[u32], ways: &[usize], rule: usize, from: usize) -> Option<usize> {
    (0..256).find(|&j| leads(table, ways, rule, from, j))
}

fn walk(table: &[u32], ways: &[usize], rule: usize, uses: &mut [usize]) -> usize {
    let mut from = rule;
    for n in 0..64 {
        let Some(j) = step(table, ways, rule, from) else {
            return n;
        };
        put_number(uses, n, j);
        match used_by(table, j) {
            Some(used) if used != rule => from = used,
            _ => return n + 1,
        }
    }
    64
}

// The uses that lead from the rule back to itself, in order; how many there are.
pub fn cycle(table: &[u32], rule: usize, uses: &mut [usize]) -> usize {
    let mut ways = [64usize; 64];
    rounds(table, &mut ways, rule);
    walk(table, &ways, rule, uses)
}
