// Refusal 12: rules that the start rule does not reach. The first in full, the others in a few words.
use report_advice::unreached;
use report_listing::places::{in_rule, owner, part_at, place_of};
use report_listing::sets;
use report_measures::reach::{reached, unreached_from, use_from};
use report_measures::structure::{body_of, is_used};
use report_measures::words::number_at;
use report_quoting::nearest::{near, nearest};
use report_quoting::quoting::{Part, token};
use report_wording::lines;
use report_wording::writing::say;
use std::io::Stdout;
use text_header::Heading;
use text_names::names::same;

fn next(n: usize) -> usize {
    n.saturating_add(1).min(256)
}

// Where the name of a rule stands.
fn name_of(grammar: &[u8], table: &[u32], rule: usize) -> usize {
    owner(grammar, place_of(grammar, body_of(table, rule)))
}

fn used_at(out: Stdout, grammar: &[u8], at: usize) {
    say(out, b"    ");
    lines::place(out, grammar, at);
    in_rule(out, grammar, at);
    say(out, b":  ");
    token(out, grammar, at);
    say(out, b"\n");
}

// The uses of a rule, at most twenty.
fn uses(out: Stdout, grammar: &[u8], table: &[u32], rule: usize) {
    let mut start = 0;
    for _ in 0..20usize {
        let Some(j) = use_from(table, rule, start) else {
            return;
        };
        used_at(out, grammar, place_of(grammar, j));
        start = next(j);
    }
    if use_from(table, rule, start).is_some() {
        say(out, b"    and more\n");
    }
}

fn is_near(grammar: &[u8], table: &[u32], marks: &[usize], at: usize, rule: usize) -> bool {
    number_at(marks, rule) == 1 && near(grammar, name_of(grammar, table, rule), at)
}

// The first rule that is reached and used, and has nearly the name at a place.
fn near_rule(grammar: &[u8], table: &[u32], marks: &[usize], at: usize) -> Option<usize> {
    (1..64).find(|&rule| is_near(grammar, table, marks, at, rule))
}

// Rule `rule` has nearly the name at a place.
fn nearly(out: Stdout, grammar: &[u8], table: &[u32], at: usize, rule: usize) {
    let name = name_of(grammar, table, rule);
    say(out, b"The rule ");
    token(out, grammar, name);
    say(out, b", ");
    lines::place(out, grammar, name);
    unreached::nearly(out, grammar, at);
    uses(out, grammar, table, rule);
}

fn hidden_by(out: Stdout, grammar: &[u8], at: usize, variable: Option<usize>) {
    match variable {
        Some(variable) if same(grammar, variable, at) => {
            unreached::hidden(out);
            used_at(out, grammar, variable);
        }
        _ => {}
    }
}

// A variable of the same name.
fn hidden(out: Stdout, grammar: &[u8], at: usize) {
    match text_header::header::header(grammar) {
        Heading::Rules(base) => hidden_by(out, grammar, at, nearest(grammar, base, at, true)),
        Heading::Wrong(_) => {}
    }
}

fn how(out: Stdout, grammar: &[u8], table: &[u32], rule: usize, used: bool) {
    if used {
        unreached::used_in_vain(out);
        uses(out, grammar, table, rule);
    } else {
        unreached::nothing_uses(out);
    }
}

fn first(out: Stdout, grammar: &[u8], table: &[u32], marks: &[usize], rule: usize) {
    let at = name_of(grammar, table, rule);
    let used = is_used(table, rule);
    say(out, b"The rule ");
    token(out, grammar, at);
    say(out, b" is not reached from the start rule ");
    token(out, grammar, name_of(grammar, table, 0));
    how(out, grammar, table, rule, used);
    if let Some(near) = near_rule(grammar, table, marks, at) {
        nearly(out, grammar, table, at, near);
    }
    hidden(out, grammar, at);
    unreached::change(out, used);
}

fn line(out: Stdout, grammar: &[u8], table: &[u32], rule: usize) {
    part_at(out, grammar, name_of(grammar, table, rule), Part::Whole);
    unreached::brief(out, is_used(table, rule));
}

// The rules from `start` on.
fn others(out: Stdout, grammar: &[u8], table: &[u32], marks: &[usize], start: usize) {
    let mut from = start;
    for _ in 0..64usize {
        let Some(rule) = unreached_from(table, marks, from) else {
            return;
        };
        if from == start {
            say(out, b"Further rules that are not reached:\n");
        }
        line(out, grammar, table, rule);
        from = next(rule);
    }
}

fn told(out: Stdout, grammar: &[u8], table: &[u32]) {
    let mut marks = [0usize; 64];
    reached(table, &mut marks);
    if let Some(rule) = unreached_from(table, &marks, 1) {
        first(out, grammar, table, &marks, rule);
        others(out, grammar, table, &marks, next(rule));
    }
}

pub fn explained(out: Stdout, grammar: &[u8]) {
    let words = sets::encoded(grammar).words;
    told(out, grammar, &words);
}
