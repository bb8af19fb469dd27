// A construct is taken off the list of what is still to come, and what it is made of put on.
use crate::choices::{choose, fitting, passes, push_parts, push_passes};
use crate::entries::{Chain, Tag, closed, field, noted, push, strings_of};
use report_measures::counts::{Counts, counts_of};
use report_measures::lengths::width_of;
use report_measures::structure::{body_of, end_of, next};
use report_measures::words::set_at;
use table_layout::{Construct, Passes, construct_at};

fn repeat(
    first: &[u64],
    items: &mut [usize],
    sets: &mut [u64],
    steps: &mut [usize],
    chain: Chain,
    i: usize,
    counts: Counts,
) -> Chain {
    let body = next(i);
    let set = set_at(first, body);
    let rest = strings_of(sets, chain.depth);
    let fit = passes(
        set,
        rest,
        counts.low,
        counts.high,
        chain.target,
        chain.whole,
    );
    let Some(n) = fit else {
        return closed(chain);
    };
    let told = past_eight(items, sets, noted(steps, chain, Tag::Repeats, i, n), i, n);
    push_passes(items, sets, told, body, set, n)
}

// Eight passes stand for eight or more; those past the eighth come after them.
fn past_eight(items: &mut [usize], sets: &mut [u64], chain: Chain, i: usize, n: usize) -> Chain {
    if n == 8 && i < 256 {
        return push(items, sets, chain, 512 + i, lookahead::single(1));
    }
    chain
}

fn used(
    table: &[u32],
    first: &[u64],
    items: &mut [usize],
    sets: &mut [u64],
    steps: &mut [usize],
    chain: Chain,
    i: usize,
    rule: usize,
) -> Chain {
    let told = noted(steps, chain, Tag::Enters, i, rule);
    let body = body_of(table, rule);
    push(items, sets, told, body, set_at(first, body))
}

// With a variable in them the counts count as any.
fn repeated(
    table: &[u32],
    first: &[u64],
    items: &mut [usize],
    sets: &mut [u64],
    steps: &mut [usize],
    chain: Chain,
    i: usize,
    passes: Passes,
) -> Chain {
    let any = Counts { low: 0, high: 8 };
    let counts = counts_of(table, passes).unwrap_or(any);
    repeat(first, items, sets, steps, chain, i, counts)
}

// A case that fits; where none does, a switch without a default takes nothing.
fn switch(
    table: &[u32],
    first: &[u64],
    items: &mut [usize],
    sets: &mut [u64],
    steps: &mut [usize],
    chain: Chain,
    i: usize,
    end: usize,
) -> Chain {
    let rest = strings_of(sets, chain.depth);
    if let Some(part) = fitting(table, first, next(i), end, rest, chain.target, chain.whole) {
        let told = noted(steps, chain, Tag::Branch, i, 0);
        return push(items, sets, told, part, set_at(first, part));
    }
    if lookahead::contains(set_at(first, i), 1) {
        return noted(steps, chain, Tag::PassesOver, i, 0);
    }
    closed(chain)
}

// The topmost entry is the construct i.
pub fn construct(
    table: &[u32],
    first: &[u64],
    items: &mut [usize],
    sets: &mut [u64],
    steps: &mut [usize],
    chain: Chain,
    i: usize,
) -> Chain {
    match construct_at(table, i) {
        Construct::Missing => closed(chain),
        Construct::Alternative { size } => {
            let told = noted(steps, chain, Tag::Branch, i, 0);
            choose(table, first, items, sets, told, next(i), end_of(i, size))
        }
        Construct::Concatenation { size } => {
            let told = noted(steps, chain, Tag::Members, i, 0);
            push_parts(table, first, items, sets, told, next(i), end_of(i, size))
        }
        Construct::Repetition { passes, .. } => {
            repeated(table, first, items, sets, steps, chain, i, passes)
        }
        Construct::Switch { size } => {
            switch(table, first, items, sets, steps, chain, i, end_of(i, size))
        }
        Construct::Use { rule } => used(table, first, items, sets, steps, chain, i, rule),
        Construct::Literal { .. } | Construct::Range { .. } | Construct::Uint { .. } => {
            field(steps, chain, i, width_of(table, i))
        }
        Construct::Eod => noted(steps, chain, Tag::Ends, i, 0),
    }
}
