// The entries of a list, from the last to the first.
ghost use Rattle.std.specs.Prelude.{◌≡◌, List, ℕ, ◌+◌, ◌*◌, ◌<◌, ◌≤◌, length, get_or};
ghost use Rattle.table_first_follow.specs.Sets.{FirstSets, family_words};
ghost use Rattle.report_chain_steps.specs.Told.{steps_of as steps_of, told};
ghost use Rattle.report_chain_steps.specs.Replayed.{no_depth, Read, Tail};

use crate::rests::moved;
use report_chain_steps::constructs::made;
use report_chain_steps::fields::field;
use report_chain_steps::stack::put;
use report_chain_steps::words::number_at;
use report_chain_steps::{NO_DEPTH, Place};

// Construct i in place of what it is made of.
fn put_made(table: &[u32], items: &mut [usize], at: Place, tag: usize, i: usize, v: usize) -> Place
    ensures { Read table.now items.old items.new at result (steps_of tag i v) }
{
    let below = made(table, items, at.depth, tag, i, v);
    Place {
        depth: put(items, below, i),
        rest: at.rest,
        left: at.left,
        seen: at.seen,
    }
}

fn put_behind(rest: usize) -> usize
    ensures { result < no_depth → (result ≡ 0) × (0 < rest) }
{
    if rest == 0 {
        return NO_DEPTH;
    }
    0
}

// What follows one construct in place of what comes after another.
fn put_moved(table: &[u32], items: &[usize], at: Place, tag: usize, i: usize, v: usize) -> Place
    ensures { Read table.now items.now items.now at result (steps_of tag i v) }
{
    let rest = moved(table, items, at.depth, at.rest, tag, i, v);
    Place {
        depth: put_behind(rest),
        rest,
        left: at.left,
        seen: at.seen,
    }
}

// Tags 5, 6 and 11 to 13 are about what follows.
fn is_moved(tag: usize) -> bool {
    tag == 5 || tag == 6 || 10 < tag
}

// One entry.
fn entry(
    table: &[u32],
    first: &[u64],
    items: &mut [usize],
    at: Place,
    tag: usize,
    i: usize,
    v: usize,
) -> Place
    requires { (length first.now ≡ family_words) × FirstSets table.now first.now }
    ensures { Read table.now items.old items.new at result (steps_of tag i v) }
{
    if tag == 1 {
        return field(table, first, items, at, i, v);
    }
    if is_moved(tag) {
        return put_moved(table, items, at, tag, i, v);
    }
    put_made(table, items, at, tag, i, v)
}

// Entry k of the list.
fn entry_at(
    table: &[u32],
    first: &[u64],
    steps: &[usize],
    items: &mut [usize],
    at: Place,
    k: usize,
) -> Place
    requires { (k < 1024) × (length first.now ≡ family_words) × FirstSets table.now first.now }
    ensures { Read table.now items.old items.new at result (steps_of (get_or steps.now (3 * k) 0) (get_or steps.now (3 * k + 1) 0) (get_or steps.now (3 * k + 2) 0)) }
{
    let tag = number_at(steps, 3 * k);
    let i = number_at(steps, 3 * k + 1);
    let v = number_at(steps, 3 * k + 2);
    entry(table, first, items, at, tag, i, v)
}

// The first `count` entries, the last of them first.
pub fn replayed(
    table: &[u32],
    first: &[u64],
    steps: &[usize],
    items: &mut [usize],
    start: Place,
    count: usize,
) -> Place
    requires { (count ≤ 1024) × (length first.now ≡ family_words) × FirstSets table.now first.now }
    ensures { result.depth < no_depth → (n : ℕ) → Tail table.now items.old start (told steps.now count n) → Tail table.now items.new result (told steps.now 0 (count + n)) }
{
    let mut at = start;
    for k in (0..count).rev() {
        if NO_DEPTH <= at.depth {
            return at;
        }
        at = entry_at(table, first, steps, items, at, k);
    }
    at
}
