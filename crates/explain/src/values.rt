// Refusal 13: uints and sints with no value left. The first in full, the others by their places.
use report_listing::places::{part_at, place_of};
use report_listing::sets;
use report_measures::words::set_at;
use report_quoting::quoting::Part;
use report_wording::writing::say;
use std::io::Stdout;
use table_layout::{Construct, construct_at};

// Construct i is a uint or sint whose set of strings is empty; with a variable it has all.
fn is_empty(table: &[u32], first: &[u64], i: usize) -> bool {
    matches!(construct_at(table, i), Construct::Uint { .. })
        && lookahead::is_empty(set_at(first, i))
}

// The fields after the first, a line each, at most twenty.
fn told(out: Stdout, grammar: &[u8], table: &[u32]) {
    let mut first = [0u64; 2056];
    sets::first(table, &mut first);
    let empty = (0..256).filter(|&i| is_empty(table, &first, i));
    for (n, i) in empty.enumerate() {
        line(out, grammar, i, n);
    }
}

// A field that has no value, after n others: the first was explained in full.
fn line(out: Stdout, grammar: &[u8], i: usize, n: usize) {
    if n == 1 {
        say(out, b"Further fields that have no value:\n");
    }
    match n {
        1..=20 => part_at(out, grammar, place_of(grammar, i), Part::Field),
        21 => say(out, b"    and more\n"),
        _ => {}
    }
}

pub fn explained(out: Stdout, grammar: &[u8], at: usize) {
    report_values::values::none_left(out, grammar, at);
    let words = sets::encoded(grammar).words;
    told(out, grammar, &words);
}
