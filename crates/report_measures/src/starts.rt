// At which bit of a byte constructs begin: sets of remainders by 8, a bit for each.
use crate::lengths::lengths;
use crate::remainders::{star, sum, union};
use crate::structure::{body_of, next, parts_of};
use crate::words::{number_at, put_number};
use table_layout::{Construct, Passes, construct_at};

// Whether that is more than there was.
fn give(starts: &mut [usize], i: usize, set: usize) -> bool {
    let before = number_at(starts, i);
    let all = union(before, set);
    put_number(starts, i, all);
    all != before
}

// Each part gets where it begins; of a concatenation behind the parts before it.
fn hand(
    table: &[u32],
    lengths: &[usize],
    starts: &mut [usize],
    i: usize,
    set: usize,
    joined: bool,
) -> bool {
    let mut here = set;
    let mut grew = false;
    for at in parts_of(table, i) {
        grew |= give(starts, at, here);
        if joined {
            here = sum(here, number_at(lengths, at));
        }
    }
    grew
}

// A pass begins where the repetition does, or after any number of passes.
fn pass(set: usize, length: usize, passes: Passes) -> usize {
    match passes {
        Passes::Optional => set,
        _ => star(length, set),
    }
}

fn hand_on(table: &[u32], lengths: &[usize], starts: &mut [usize], i: usize) -> bool {
    let set = number_at(starts, i);
    match construct_at(table, i) {
        Construct::Alternative { .. } | Construct::Switch { .. } => {
            hand(table, lengths, starts, i, set, false)
        }
        Construct::Concatenation { .. } => hand(table, lengths, starts, i, set, true),
        Construct::Repetition { passes, .. } => give(
            starts,
            next(i),
            pass(set, number_at(lengths, next(i)), passes),
        ),
        Construct::Use { rule } => give(starts, body_of(table, rule), set),
        _ => false,
    }
}

fn round(table: &[u32], lengths: &[usize], starts: &mut [usize]) -> bool {
    let mut grew = false;
    for i in 0..256 {
        grew |= hand_on(table, lengths, starts, i);
    }
    grew
}

// After a round in which nothing grew all rounds are the same.
fn rounds(table: &[u32], lengths: &[usize], starts: &mut [usize]) {
    put_number(starts, 0, 1);
    for _n in 0..65 {
        if !round(table, lengths, starts) {
            return;
        }
    }
}

// Where construct i begins.
pub fn start_of(table: &[u32], i: usize) -> usize {
    let mut sizes = [0usize; 256];
    let mut starts = [0usize; 256];
    lengths(table, &mut sizes);
    rounds(table, &sizes, &mut starts);
    number_at(&starts, i)
}

// Where a repetition goes on or stops.
pub fn turn_of(table: &[u32], i: usize) -> usize {
    let mut sizes = [0usize; 256];
    let mut starts = [0usize; 256];
    lengths(table, &mut sizes);
    rounds(table, &sizes, &mut starts);
    star(number_at(&sizes, next(i)), number_at(&starts, i))
}
