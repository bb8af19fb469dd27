// Branches that begin alike, written with what they share in front.
use lookahead::Set;
use report_listing::places::place_of;
use report_measures::lengths::is_literal;
use report_measures::literals::character;
use report_quoting::prefixes;
use std::io::Stdout;
use table_layout::{Construct, construct_at};

// The construct that a branch begins with: of a concatenation its first member.
fn leading(table: &[u32], i: usize) -> usize {
    match construct_at(table, i) {
        Construct::Concatenation { .. } => i.saturating_add(1),
        _ => i,
    }
}

// Each of the branches begins with a literal.
fn all_literals(table: &[u32], branches: &[usize]) -> bool {
    branches
        .iter()
        .all(|&i| is_literal(table, leading(table, i)))
}

// Whether what comes after the alternative may begin as the literal of branch i goes on after n characters.
fn goes_on_so(table: &[u32], after: Set, i: usize, n: usize) -> bool {
    lookahead::contains(after, 256 + character(table, leading(table, i), n))
}

// The rest of branch i may be left out, unless what comes after begins like it: then the check could not tell.
fn optional(
    out: Stdout,
    grammar: &[u8],
    table: &[u32],
    after: Set,
    i: usize,
    n: usize,
    count: usize,
) {
    if goes_on_so(table, after, i, n) {
        report_advice::clashes::rest_follows(out);
        return;
    }
    report_advice::clashes::optional(out);
    prefixes::optional(out, grammar, place_of(grammar, i), n);
    report_advice::clashes::mends(out, count);
}

// One of two branches is all that they share.
fn one_in_other(
    out: Stdout,
    grammar: &[u8],
    table: &[u32],
    after: Set,
    first: usize,
    second: usize,
    count: usize,
) -> bool {
    let a = place_of(grammar, first);
    let b = place_of(grammar, second);
    let n = prefixes::shared(grammar, a, b);
    if prefixes::is_prefix(grammar, a, b, n) {
        optional(out, grammar, table, after, second, n, count);
        return true;
    }
    if prefixes::is_prefix(grammar, b, a, n) {
        optional(out, grammar, table, after, first, n, count);
        return true;
    }
    false
}

// The first two alone, where not all can be written so.
fn two(
    out: Stdout,
    grammar: &[u8],
    table: &[u32],
    after: Set,
    branches: &[usize],
    places: &[usize],
) -> bool {
    let count = branches.len();
    let pair = places.get(..2).unwrap_or(places);
    if prefixes::fit(grammar, pair) {
        report_advice::clashes::in_front(out, 2);
        prefixes::written(out, grammar, pair);
        report_advice::clashes::mends(out, count);
        return true;
    }
    match branches {
        [first, second, ..] => one_in_other(out, grammar, table, after, *first, *second, count),
        _ => false,
    }
}

// All of them, where each begins with a literal.
fn all(out: Stdout, grammar: &[u8], table: &[u32], branches: &[usize], places: &[usize]) -> bool {
    let fits = all_literals(table, branches) && prefixes::fit(grammar, places);
    if fits {
        report_advice::clashes::in_front(out, branches.len());
        prefixes::written(out, grammar, places);
    }
    fits
}

// Whether the branches were written anew, or it was said why not. `after`: what may come after the alternative.
pub fn written(out: Stdout, grammar: &[u8], table: &[u32], after: Set, branches: &[usize]) -> bool {
    let mut places = [0usize; 256];
    for (place, i) in places.iter_mut().zip(branches) {
        *place = place_of(grammar, *i);
    }
    let places = places.get(..branches.len()).unwrap_or(&[]);
    all(out, grammar, table, branches, places)
        || all_literals(table, branches.get(..2).unwrap_or(branches))
            && two(out, grammar, table, after, branches, places)
}
