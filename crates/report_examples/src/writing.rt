// The bits of constructs, written out: a list of what is still to be written, the first on top, each entry the members from one place up to another.
// None where it cannot be said.
use crate::least::{low, shortest, value_at};
use report_measures::literals::character;
use report_measures::structure::{after, body_of, end_of, next};
use report_measures::words::{number_at, put_number};
use table_layout::{Construct, Passes, construct_at, size_of};

// How many entries there are, and how many bits are written.
#[derive(Clone, Copy)]
pub struct Written {
    pub depth: usize,
    pub count: usize,
}

pub fn push(
    from: &mut [usize],
    to: &mut [usize],
    w: Written,
    a: usize,
    e: usize,
) -> Option<Written> {
    let depth = w.depth;
    if 511 < depth {
        return None;
    }
    put_number(from, depth, a);
    put_number(to, depth, e);
    Some(Written {
        depth: depth + 1,
        ..w
    })
}

// An example of more than 24 bytes is none.
fn bit(out: &mut [usize], w: Written, b: usize) -> Option<Written> {
    let count = w.count;
    if 191 < count {
        return None;
    }
    put_number(out, count, b);
    Some(Written {
        count: count + 1,
        ..w
    })
}

// Bit k of a value, in two's complement.
fn bit_of(value: i64, k: usize) -> usize {
    if (value >> k.min(63)) % 2 == 0 { 0 } else { 1 }
}

// The bits of a value, the most significant first.
fn number(out: &mut [usize], start: Written, value: i64, width: usize) -> Option<Written> {
    let mut w = start;
    for k in (0..width).rev() {
        w = bit(out, w, bit_of(value, k))?;
    }
    Some(w)
}

fn literal(
    table: &[u32],
    out: &mut [usize],
    start: Written,
    i: usize,
    length: usize,
) -> Option<Written> {
    let mut w = start;
    for k in 0..length {
        w = number(out, w, character(table, i, k) as i64, 8)?;
    }
    Some(w)
}

// The passes of the body that come before a repetition may stop.
pub fn first_passes(
    table: &[u32],
    from: &mut [usize],
    to: &mut [usize],
    start: Written,
    i: usize,
    size: usize,
    counts: Passes,
) -> Option<Written> {
    let n = low(table, counts)?;
    let mut w = start;
    for _k in 0..n {
        w = push(from, to, w, next(i), end_of(i, size))?;
    }
    Some(w)
}

fn whole(
    table: &[u32],
    from: &mut [usize],
    to: &mut [usize],
    w: Written,
    i: usize,
) -> Option<Written> {
    push(from, to, w, i, end_of(i, size_of(construct_at(table, i))))
}

fn construct(
    table: &[u32],
    values: &[Option<i64>; 256],
    least: &[usize],
    from: &mut [usize],
    to: &mut [usize],
    out: &mut [usize],
    w: Written,
    i: usize,
) -> Option<Written> {
    match construct_at(table, i) {
        Construct::Alternative { .. } => whole(table, from, to, w, shortest(table, least, i)),
        Construct::Concatenation { size } => push(from, to, w, next(i), end_of(i, size)),
        Construct::Repetition { size, passes } => first_passes(table, from, to, w, i, size, passes),
        Construct::Use { rule } => whole(table, from, to, w, body_of(table, rule)),
        Construct::Literal { length } => literal(table, out, w, i, length),
        Construct::Range { .. } => number(out, w, value_at(values, i)?, 8),
        Construct::Uint { width, .. } => number(out, w, value_at(values, i)?, width),
        _ => None,
    }
}

// The first member of the topmost entry.
fn step(
    table: &[u32],
    values: &[Option<i64>; 256],
    least: &[usize],
    from: &mut [usize],
    to: &mut [usize],
    out: &mut [usize],
    w: Written,
) -> Option<Written> {
    let top = w.depth.saturating_sub(1);
    let a = number_at(from, top);
    let e = number_at(to, top);
    if e <= a {
        return Some(Written { depth: top, ..w });
    }
    put_number(from, top, after(table, a, e));
    construct(table, values, least, from, to, out, w, a)
}

pub fn run(
    table: &[u32],
    values: &[Option<i64>; 256],
    least: &[usize],
    from: &mut [usize],
    to: &mut [usize],
    out: &mut [usize],
    start: Written,
) -> Option<Written> {
    let mut w = start;
    for _n in 0..4096 {
        if w.depth == 0 {
            return Some(w);
        }
        w = step(table, values, least, from, to, out, w)?;
    }
    None
}
