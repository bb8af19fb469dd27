// The bits of a frame up to a construct.
use crate::least::{NEVER, least, values};
use crate::paths::path;
use crate::writing::{Written, first_passes, push, run};
use report_measures::counts::counts_of;
use report_measures::structure::next;
use report_measures::words::number_at;
use table_layout::{Construct, Passes, construct_at};

// A pass may come, and be the only one.
fn one_may_come(table: &[u32], passes: Passes) -> bool {
    match counts_of(table, passes) {
        Some(counts) => 0 < counts.high && counts.low <= 1,
        None => true,
    }
}

// What comes in `above` before its part: of a concatenation the members before it; of a repetition nothing.
fn entered(
    table: &[u32],
    from: &mut [usize],
    to: &mut [usize],
    w: Written,
    above: usize,
    part: usize,
) -> Option<Written> {
    match construct_at(table, above) {
        Construct::Alternative { .. } | Construct::Use { .. } => Some(w),
        Construct::Concatenation { .. } => push(from, to, w, next(above), part),
        Construct::Repetition { passes, .. } if one_may_come(table, passes) => Some(w),
        _ => None,
    }
}

fn down(
    table: &[u32],
    values: &[Option<i64>; 256],
    least: &[usize],
    out: &mut [usize],
    w: Written,
    above: usize,
    part: usize,
) -> Option<Written> {
    let mut from = [0usize; 512];
    let mut to = [0usize; 512];
    let begun = entered(table, &mut from, &mut to, w, above, part)?;
    run(table, values, least, &mut from, &mut to, out, begun)
}

// Along a way of n constructs, the last first.
fn along(
    table: &[u32],
    values: &[Option<i64>; 256],
    least: &[usize],
    out: &mut [usize],
    start: Written,
    way: &[usize],
    n: usize,
) -> Option<Written> {
    let mut w = start;
    for k in (1..n).rev() {
        let part = number_at(way, k - 1);
        w = down(table, values, least, out, w, number_at(way, k), part)?;
    }
    Some(w)
}

// After the passes that must come, one more may, and none need.
fn may_stop(table: &[u32], passes: Passes) -> bool {
    match counts_of(table, passes) {
        Some(counts) => counts.low < counts.high,
        None => true,
    }
}

// The passes before a repetition may stop; before other constructs nothing.
fn turned(
    table: &[u32],
    from: &mut [usize],
    to: &mut [usize],
    w: Written,
    i: usize,
) -> Option<Written> {
    match construct_at(table, i) {
        Construct::Repetition { size, passes } => {
            if !may_stop(table, passes) {
                return None;
            }
            first_passes(table, from, to, w, i, size, passes)
        }
        _ => Some(w),
    }
}

fn turn(
    table: &[u32],
    values: &[Option<i64>; 256],
    least: &[usize],
    out: &mut [usize],
    w: Written,
    i: usize,
) -> Option<Written> {
    let mut from = [0usize; 512];
    let mut to = [0usize; 512];
    let begun = turned(table, &mut from, &mut to, w, i)?;
    run(table, values, least, &mut from, &mut to, out, begun)
}

// The bits before construct i, a number for each, in one of the shortest frames that come there; of a repetition also the passes that must come. How many
// bits there are, where it can be said.
pub fn up_to(table: &[u32], i: usize, out: &mut [usize]) -> Option<usize> {
    let mut sizes = [NEVER; 256];
    let mut chosen: [Option<i64>; 256] = [None; 256];
    let mut way = [0usize; 256];
    values(table, &mut chosen);
    least(table, &chosen, &mut sizes);
    let n = path(table, i, &mut way)?;
    let start = Written { depth: 0, count: 0 };
    let before = along(table, &chosen, &sizes, out, start, &way, n)?;
    let all = turn(table, &chosen, &sizes, out, before, i)?;
    Some(all.count)
}
