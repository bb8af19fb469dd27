// Weights of constructs, as far as 10^15: "field or eod 1; rule use 1 + body; concatenation 1 + sum; alternative or switch 1 + largest; repetition
// 2 × body + 1".
use crate::structure::{body_of, next, parts_of, rules};
use crate::words::{number_at, put_number};
use table_layout::{Construct, construct_at};

const LARGEST: usize = 1000000000000000;

fn plus(a: usize, b: usize) -> usize {
    if a < LARGEST && b < LARGEST {
        return a + b;
    }
    LARGEST
}

fn all(table: &[u32], weights: &[usize], i: usize) -> usize {
    parts_of(table, i).fold(0, |sum, part| plus(sum, number_at(weights, part)))
}

fn largest(table: &[u32], weights: &[usize], i: usize) -> usize {
    parts_of(table, i).fold(0, |most, part| number_at(weights, part).max(most))
}

fn weight_of(table: &[u32], weights: &[usize], i: usize) -> usize {
    match construct_at(table, i) {
        Construct::Missing => 0,
        Construct::Alternative { .. } | Construct::Switch { .. } => {
            plus(1, largest(table, weights, i))
        }
        Construct::Concatenation { .. } => plus(1, all(table, weights, i)),
        Construct::Repetition { .. } => {
            let body = number_at(weights, next(i));
            plus(1, plus(body, body))
        }
        Construct::Use { rule } => plus(1, rule_weight(table, weights, rule)),
        _ => 1,
    }
}

// Whether a weight changed.
fn round(table: &[u32], weights: &mut [usize]) -> bool {
    let mut changed = false;
    for i in (0..256).rev() {
        let weight = weight_of(table, weights, i);
        changed |= weight != number_at(weights, i);
        put_number(weights, i, weight);
    }
    changed
}

// Rules lead to each other at most 64 deep; after a round without a change all rounds are the same.
pub fn weights(table: &[u32], weights: &mut [usize]) {
    for _n in 0..65 {
        if !round(table, weights) {
            return;
        }
    }
}

fn rule_weight(table: &[u32], weights: &[usize], rule: usize) -> usize {
    number_at(weights, body_of(table, rule))
}

// Whether rule k comes after the rule `last` in the order of weights, the heaviest first.
fn comes_after(table: &[u32], weights: &[usize], k: usize, last: usize) -> bool {
    let weight = rule_weight(table, weights, k);
    let before = rule_weight(table, weights, last);
    weight < before || weight == before && last < k
}

// The next rule in that order after the rule `last`, or from the start.
pub fn next_heaviest(table: &[u32], weights: &[usize], last: Option<usize>) -> Option<usize> {
    let mut found: Option<usize> = None;
    for k in 0..rules(table) {
        let later = match last {
            Some(rule) => comes_after(table, weights, k, rule),
            None => true,
        };
        let heavier = match found {
            Some(rule) => rule_weight(table, weights, rule) < rule_weight(table, weights, k),
            None => true,
        };
        if later && heavier {
            found = Some(k);
        }
    }
    found
}
