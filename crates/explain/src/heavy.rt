// Refusal 11: the weight, and the heaviest rules.
use report_listing::places::{owner, place_of};
use report_listing::sets;
use report_measures::structure::body_of;
use report_measures::weights::{next_heaviest, weights};
use report_measures::words::number_at;
use report_quoting::quoting::token;
use report_wording::lines;
use report_wording::writing::{number, say};
use std::io::Stdout;

fn named(out: Stdout, grammar: &[u8], at: usize) {
    say(out, b":  the rule ");
    token(out, grammar, at);
    say(out, b", ");
    lines::place(out, grammar, at);
    say(out, b"\n");
}

fn one(out: Stdout, grammar: &[u8], table: &[u32], weights: &[usize], rule: usize) {
    let body = body_of(table, rule);
    number(out, b"    weight ", number_at(weights, body));
    named(out, grammar, owner(grammar, place_of(grammar, body)));
}

fn heaviest(out: Stdout, grammar: &[u8], table: &[u32], weights: &[usize]) {
    let mut last: Option<usize> = None;
    for _ in 0..4usize {
        last = next_heaviest(table, weights, last);
        match last {
            Some(rule) => one(out, grammar, table, weights, rule),
            None => return,
        }
    }
}

fn one_more(n: usize) -> usize {
    if n < 1000000000000000 {
        return n + 1;
    }
    n
}

fn told(out: Stdout, grammar: &[u8], table: &[u32]) {
    let mut sizes = [0usize; 256];
    weights(table, &mut sizes);
    number(
        out,
        b"The grammar is too heavy: its weight is ",
        one_more(number_at(&sizes, 0)),
    );
    report_advice::rest::weight(out);
    heaviest(out, grammar, table, &sizes);
    report_advice::rest::change_weight(out);
}

pub fn explained(out: Stdout, grammar: &[u8]) {
    let words = sets::encoded(grammar).words;
    told(out, grammar, &words);
}
