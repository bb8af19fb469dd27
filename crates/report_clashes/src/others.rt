// The clashes after the first, a line or two each.
use crate::sides::next;
use report_listing::places::place_of;
use report_listing::sets;
use report_measures::starts;
use report_quoting::quoting::{Part, quote};
use report_quoting::windows;
use report_wording::lines;
use report_wording::writing::{number, say};
use std::io::Stdout;
use table_conflicts::Clash;

fn also(out: Stdout, grammar: &[u8], at: usize) {
    say(out, b"    ");
    lines::place(out, grammar, at);
    say(out, b":  ");
}

fn also_branches(
    out: Stdout,
    grammar: &[u8],
    table: &[u32],
    window: usize,
    one: usize,
    other: usize,
) {
    let at = place_of(grammar, one);
    also(out, grammar, at);
    quote(out, grammar, at, Part::Branch);
    say(out, b"  and  ");
    quote(out, grammar, place_of(grammar, other), Part::Branch);
    say(out, b"\n        by the check both admit");
    windows::window(out, window, starts::start_of(table, one));
}

fn also_passes(out: Stdout, grammar: &[u8], table: &[u32], construct: usize, window: usize) {
    let at = place_of(grammar, construct);
    also(out, grammar, at);
    quote(out, grammar, at, Part::Member);
    say(
        out,
        b"\n        by the check going on and stopping both admit",
    );
    windows::window(out, window, starts::turn_of(table, construct));
}

fn another(out: Stdout, grammar: &[u8], table: &[u32], construct: usize, clash: Clash) {
    match clash {
        Clash::None => {}
        Clash::Branches {
            window,
            first,
            second,
        } => also_branches(out, grammar, table, window, first, second),
        Clash::Passes { window } => also_passes(out, grammar, table, construct, window),
    }
}

// How many constructs from one on have a clash.
fn count_from(table: &[u32], follow: &[u64], prediction: &[u64], from: usize) -> usize {
    (from..256)
        .filter(|&i| !matches!(sets::clash(table, follow, prediction, i), Clash::None))
        .count()
}

pub fn others(
    out: Stdout,
    grammar: &[u8],
    table: &[u32],
    follow: &[u64],
    prediction: &[u64],
    construct: usize,
) {
    let n = count_from(table, follow, prediction, next(construct));
    if n == 0 {
        return;
    }
    number(out, b"Further clashes: ", n);
    say(out, b". They may be gone once the first is.\n");
    for i in next(construct)..256 {
        another(
            out,
            grammar,
            table,
            i,
            sets::clash(table, follow, prediction, i),
        );
    }
}
