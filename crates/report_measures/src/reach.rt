// Which rules the start rule reaches: marks, 1 for a rule that it does.
use crate::cycles::{rule_around, used_by};
use crate::structure::{is_use, rules};
use crate::words::{number_at, put_number};

// The rule that construct j uses is reached where its own is.
fn mark(table: &[u32], marks: &mut [usize], j: usize) {
    // Few constructs are uses: only of one is it asked which rule it lies in.
    let Some(used) = used_by(table, j) else {
        return;
    };
    let Some(around) = rule_around(table, j) else {
        return;
    };
    if number_at(marks, around) == 1 {
        put_number(marks, used, 1);
    }
}

fn round(table: &[u32], marks: &mut [usize]) {
    for j in 0..256 {
        mark(table, marks, j);
    }
}

fn rounds(table: &[u32], marks: &mut [usize]) {
    for _n in 0..64 {
        round(table, marks);
    }
}

pub fn reached(table: &[u32], marks: &mut [usize]) {
    put_number(marks, 0, 1);
    rounds(table, marks);
}

// The first rule from `start` on that is not reached.
pub fn unreached_from(table: &[u32], marks: &[usize], start: usize) -> Option<usize> {
    (start..rules(table)).find(|&k| number_at(marks, k) == 0)
}

// The first use of a rule from construct `start` on.
pub fn use_from(table: &[u32], rule: usize, start: usize) -> Option<usize> {
    (start..256).find(|&j| is_use(table, j, rule))
}
