// Refusal 7: the uses that lead from a rule back to itself.
use report_listing::places::place_of;
use report_listing::sets;
use report_measures::cycles::cycle;
use report_quoting::quoting::token;
use report_wording::lines;
use report_wording::writing::say;
use std::io::Stdout;

fn step(out: Stdout, grammar: &[u8], construct: usize) {
    let at = place_of(grammar, construct);
    say(out, b"    ");
    lines::place(out, grammar, at);
    say(out, b":  uses ");
    token(out, grammar, at);
    say(out, b"\n");
}

fn from(out: Stdout, grammar: &[u8], table: &[u32], rule: usize) {
    let mut uses = [0usize; 64];
    let count = cycle(table, rule, &mut uses);
    for construct in uses.iter().take(count) {
        step(out, grammar, *construct);
    }
}

pub fn explained(out: Stdout, grammar: &[u8], at: usize) {
    let words = sets::encoded(grammar).words;
    report_advice::rest::recursive(out);
    if let Some(rule) = table_reach::recursive_rule(&words) {
        from(out, grammar, &words, rule);
    }
    report_advice::rest::change_recursive(out, grammar, at);
}
