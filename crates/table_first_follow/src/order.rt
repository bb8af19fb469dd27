// An order in which each construct comes after those that its FIRST set is made of: rules after the rules that they use, and of a rule the last
// construct first. Rules that reach themselves, and those that use them, are left out. Only the time depends on the order: the rounds after it
// look at every construct.
ghost use Rattle.std.specs.Prelude.{◌<◌};
ghost use Rattle.basis.specs.Limits.{max_rules};

use basis::{MAX_CONSTRUCTS, MAX_RULES};
use table_layout::{OPENING, RULES_AT, word};
use table_reach::{at_most, reaching};

// The rules that are in the order so far, a bit each, and how many numbers it has.
#[derive(Clone, Copy)]
pub struct Placed {
    rules: u64,
    count: usize,
}

// One number more, where there is room.
fn put(order: &mut [usize], n: usize, i: usize) -> usize {
    if n < order.len() {
        order[n] = i;
        return n + 1;
    }
    n
}

// The constructs of rule r.
fn put_rule(table: &[u32], order: &mut [usize], n: usize, r: usize) -> usize
    requires { r < max_rules }
{
    let first = word(table, RULES_AT + 4 * r);
    let mut i = at_most(MAX_CONSTRUCTS, reaching::end_of(table, r));
    let mut count = n;
    while first < i {
        i -= 1;
        count = put(order, count, i);
    }
    count
}

// Rule r, if all rules that it uses are there and it is not.
fn place(table: &[u32], order: &mut [usize], row: u64, old: Placed, r: usize) -> Placed
    requires { r < max_rules }
{
    let rules = old.rules;
    let count = old.count;
    if (rules >> r) % 2 == 1 {
        return old;
    }
    if row | rules != rules {
        return old;
    }
    Placed {
        rules: rules | (1u64 << r),
        count: put_rule(table, order, count, r),
    }
}

// Every rule that is ready, from the last to the first.
fn place_ready(table: &[u32], order: &mut [usize], rows: &[u64; MAX_RULES], old: Placed) -> Placed {
    let mut placed = old;
    for r in (0..at_most(MAX_RULES, word(table, 1))).rev() {
        placed = place(table, order, rows[r], placed, r);
    }
    placed
}

// One turn fewer, or none where a turn has placed no rule.
fn turns_left(left: usize, settled: bool) -> usize
    requires { 0 < left }
    ensures { result < left }
{
    if settled { 0 } else { left - 1 }
}

// The order of all constructs, the opening use last; numbers past those stay.
pub fn fill(table: &[u32], order: &mut [usize]) {
    let mut rows = [0u64; MAX_RULES];
    reaching::fill(table, &mut rows);
    let mut placed = Placed { rules: 0, count: 0 };
    let mut left = MAX_RULES;
    while 0 < left {
        let before = placed.rules;
        placed = place_ready(table, order, &rows, placed);
        left = turns_left(left, before == placed.rules);
    }
    put(order, placed.count, OPENING);
}
