// Which part of an alternative, and how many passes, still fit the window.
use crate::entries::{Chain, closed, push, strings_of};
use crate::strings::fits;
use lookahead::Set;
use report_measures::structure::parts_from;
use report_measures::words::{number_at, set_at};

fn with(first: &[u64], rest: Set, i: usize) -> Set {
    lookahead::join(set_at(first, i), rest)
}

// The first part from `start` up to `end` that fits with the rest.
pub fn fitting(
    table: &[u32],
    first: &[u64],
    start: usize,
    end: usize,
    rest: Set,
    target: usize,
    whole: bool,
) -> Option<usize> {
    parts_from(table, start, end).find(|&part| fits(with(first, rest, part), target, whole))
}

pub fn choose(
    table: &[u32],
    first: &[u64],
    items: &mut [usize],
    sets: &mut [u64],
    chain: Chain,
    start: usize,
    end: usize,
) -> Chain {
    let rest = strings_of(sets, chain.depth);
    match fitting(table, first, start, end, rest, chain.target, chain.whole) {
        Some(part) => push(items, sets, chain, part, set_at(first, part)),
        None => closed(chain),
    }
}

// The numbers of the parts from `start` up to `end`; how many there are.
fn parts(table: &[u32], start: usize, end: usize, out: &mut [usize]) -> usize {
    let mut n = 0;
    for part in parts_from(table, start, end) {
        if n < out.len() {
            out[n] = part;
            n += 1;
        }
    }
    n
}

// The parts from `start` up to `end`, the last first, so that the first comes to lie on top.
pub fn push_parts(
    table: &[u32],
    first: &[u64],
    items: &mut [usize],
    sets: &mut [u64],
    chain: Chain,
    start: usize,
    end: usize,
) -> Chain {
    let mut places = [0usize; 256];
    let mut all = chain;
    let count = parts(table, start, end, &mut places);
    for k in (0..count).rev() {
        let part = number_at(&places, k);
        all = push(items, sets, all, part, set_at(first, part));
    }
    all
}

// The least number of passes from `low` to `high` that fits with the rest.
pub fn passes(
    body: Set,
    rest: Set,
    low: usize,
    high: usize,
    target: usize,
    whole: bool,
) -> Option<usize> {
    let mut set = rest;
    for k in 0..9 {
        if low <= k && k <= high && fits(set, target, whole) {
            return Some(k);
        }
        set = lookahead::join(body, set);
    }
    None
}

pub fn push_passes(
    items: &mut [usize],
    sets: &mut [u64],
    chain: Chain,
    body: usize,
    set: Set,
    n: usize,
) -> Chain {
    let mut all = chain;
    for _k in 0..n {
        all = push(items, sets, all, body, set);
    }
    all
}
