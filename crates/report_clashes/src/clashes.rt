// Refusal 10: what shares which bits, why, and what to change.
use crate::{changes, examples, others, sides};
use report_listing::sets;
use report_wording::lines;
use report_wording::writing::say;
use std::io::Stdout;
use table_conflicts::Clash;

fn told(out: Stdout, grammar: &[u8], table: &[u32], construct: usize, clash: Clash) {
    let mut first = [0u64; 2056];
    let mut follow = [0u64; 2056];
    let mut prediction = [0u64; 2056];
    table_first_follow::prediction::all(table, &mut first, &mut follow, &mut prediction);
    sides::explained(out, grammar, table, &first, &follow, construct, clash);
    examples::told(out, table, &first, &follow, construct, clash);
    changes::shared(out, grammar, table, &follow, &prediction, construct, clash);
    others::others(out, grammar, table, &follow, &prediction, construct);
}

pub fn conflict(out: Stdout, grammar: &[u8], at: usize, construct: usize, clash: Clash) {
    say(out, b"refused, number 10: a clash\n");
    lines::shown(out, grammar, at);
    let words = sets::encoded(grammar).words;
    told(out, grammar, &words, construct, clash);
}
