// A list of what is still to come, the first on top. Each entry has the strings of itself with all that comes after it; what is left of the window
// always fits the strings on top.
use crate::constructs::construct;
use crate::entries::{Chain, popped, push};
use crate::following::{after, push_after};
use report_measures::words::{number_at, set_at};

// The topmost entry is taken off, and what it is made of put on.
fn step(
    table: &[u32],
    first: &[u64],
    follow: &[u64],
    items: &mut [usize],
    sets: &mut [u64],
    steps: &mut [usize],
    chain: Chain,
) -> Chain {
    let rest = popped(chain);
    let item = number_at(items, rest.depth);
    if item < 256 {
        return construct(table, first, items, sets, steps, rest, item);
    }
    if item < 512 {
        return after(table, first, follow, items, sets, steps, rest, item - 256);
    }
    rest
}

fn run(
    table: &[u32],
    first: &[u64],
    follow: &[u64],
    items: &mut [usize],
    sets: &mut [u64],
    steps: &mut [usize],
    start: Chain,
) -> Chain {
    let mut chain = start;
    for _n in 0..4096 {
        if !chain.open || chain.depth == 0 {
            return chain;
        }
        chain = step(table, first, follow, items, sets, steps, chain);
    }
    chain
}

// How many steps are listed, and how many entries are still to come.
#[derive(Clone, Copy)]
pub struct Listing {
    pub count: usize,
    pub depth: usize,
}

// How the window is spelt by `construct`, where it is given, and then by what comes after `behind`, where that is.
fn found(
    table: &[u32],
    first: &[u64],
    follow: &[u64],
    steps: &mut [usize],
    items: &mut [usize],
    construct: Option<usize>,
    behind: Option<usize>,
    window: usize,
) -> Listing {
    let mut sets = [0u64; 4096];
    let mut chain = Chain {
        depth: 0,
        target: window,
        whole: window < 256,
        count: 0,
        open: true,
    };
    if let Some(i) = behind {
        chain = push_after(follow, items, &mut sets, chain, i);
    }
    if let Some(i) = construct {
        chain = push(items, &mut sets, chain, i, set_at(first, i));
    }
    let last = run(table, first, follow, items, &mut sets, steps, chain);
    Listing {
        count: last.count,
        depth: last.depth,
    }
}

// How construct i and what comes after it spell the window.
pub fn goes(
    table: &[u32],
    first: &[u64],
    follow: &[u64],
    steps: &mut [usize],
    items: &mut [usize],
    i: usize,
    window: usize,
) -> Listing {
    found(table, first, follow, steps, items, Some(i), Some(i), window)
}

// How what comes after construct i spells the window.
pub fn stops(
    table: &[u32],
    first: &[u64],
    follow: &[u64],
    steps: &mut [usize],
    items: &mut [usize],
    i: usize,
    window: usize,
) -> Listing {
    found(table, first, follow, steps, items, None, Some(i), window)
}

// How construct i takes no bits.
pub fn takes_nothing(
    table: &[u32],
    first: &[u64],
    follow: &[u64],
    steps: &mut [usize],
    items: &mut [usize],
    i: usize,
) -> Listing {
    found(table, first, follow, steps, items, Some(i), None, 1)
}
