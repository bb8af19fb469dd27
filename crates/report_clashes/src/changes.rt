// What else the two sides of a clash share, and what to change.
ghost use Rattle.std.specs.Prelude.{◌≤◌};

use crate::rewriting;
use crate::sides::{next, part};
use lookahead::Set;
use report_measures::structure::parent_of;
use report_measures::words::{number_at, put_number, set_at};
use report_wording::writing::{number, say};
use std::io::Stdout;
use table_conflicts::Clash;
use table_layout::{Construct, construct_at, size_of};

fn is_number_field(table: &[u32], i: usize) -> bool {
    matches!(construct_at(table, i), Construct::Uint { .. })
}

fn is_field_outside(table: &[u32], construct: usize, i: usize) -> bool {
    is_number_field(table, i)
        && (i < construct || size_of(construct_at(table, construct)) <= i - construct)
}

// Whether a uint stands outside of the alternative. In front of the start rule's expression stands nothing.
fn in_front(table: &[u32], construct: usize) -> bool {
    0 < construct && (0..256).any(|i| is_field_outside(table, construct, i))
}

// How many strings two sets have in common.
fn common(a: Set, b: Set) -> usize {
    (1..512)
        .filter(|&k| lookahead::contains(a, k) && lookahead::contains(b, k))
        .count()
}

// The window that is shown, and others.
fn besides(out: Stdout, n: usize) {
    if n == 2 {
        say(
            out,
            b"The check finds one more pattern of next bits that the two share.\n",
        );
    } else if 2 < n {
        number(out, b"The check finds ", n - 1);
        say(out, b" more patterns of next bits that the two share.\n");
    }
}

fn is_branch(table: &[u32], prediction: &[u64], construct: usize, window: usize, i: usize) -> bool {
    lookahead::contains(set_at(prediction, i), window) && parent_of(table, i) == Some(construct)
}

// The branches that share the window, each after the other; how many there are.
fn branches(
    table: &[u32],
    prediction: &[u64],
    construct: usize,
    window: usize,
    out: &mut [usize; 256],
) -> usize
    ensures { result ≤ 256 }
{
    let mut n = 0;
    for i in 0..256 {
        if is_branch(table, prediction, construct, window, i) {
            put_number(out, n, i);
            n += 1;
        }
    }
    n
}

fn further_title(out: Stdout, count: usize) {
    if count == 3 {
        say(out, b"A further branch clashes with the two as well:\n");
    } else if 3 < count {
        say(out, b"Further branches clash with the two as well:\n");
    }
}

fn each_further(out: Stdout, grammar: &[u8], branches: &[usize]) {
    for branch in branches.iter().skip(2) {
        part(out, grammar, *branch);
    }
}

fn change_branches(
    out: Stdout,
    grammar: &[u8],
    table: &[u32],
    follow: &[u64],
    construct: usize,
    window: usize,
    branches: &[usize],
) {
    if window < 2 {
        report_advice::clashes::ends(out);
        return;
    }
    let after = set_at(follow, construct);
    if !rewriting::written(out, grammar, table, after, branches) {
        report_advice::clashes::begins(out, in_front(table, construct));
    }
}

fn shared_branches(
    out: Stdout,
    grammar: &[u8],
    table: &[u32],
    follow: &[u64],
    prediction: &[u64],
    construct: usize,
    window: usize,
) {
    let mut all = [0usize; 256];
    let count = branches(table, prediction, construct, window, &mut all);
    let all = &all[..count];
    besides(
        out,
        common(
            set_at(prediction, number_at(all, 0)),
            set_at(prediction, number_at(all, 1)),
        ),
    );
    further_title(out, count);
    each_further(out, grammar, all);
    change_branches(out, grammar, table, follow, construct, window, all);
}

fn shared_passes(out: Stdout, follow: &[u64], prediction: &[u64], construct: usize) {
    besides(
        out,
        common(
            set_at(prediction, next(construct)),
            set_at(follow, construct),
        ),
    );
    report_advice::clashes::passes(out);
}

// What else is shared, and what to change.
pub fn shared(
    out: Stdout,
    grammar: &[u8],
    table: &[u32],
    follow: &[u64],
    prediction: &[u64],
    construct: usize,
    clash: Clash,
) {
    match clash {
        Clash::None => {}
        Clash::Branches { window, .. } => shared_branches(
            out, grammar, table, follow, prediction, construct, window,
        ),
        Clash::Passes { .. } => shared_passes(out, follow, prediction, construct),
    }
}
