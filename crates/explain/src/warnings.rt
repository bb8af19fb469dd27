// Warnings for an admitted grammar: ranges of characters that admit nothing, cases that are never chosen, a grammar that no frame matches.
use report_listing::places::{in_rule, place_of};
use report_listing::sets;
use report_measures::cases::{always_before, never_holds};
use report_measures::lengths::width_of;
use report_measures::words::set_at;
use report_quoting::quoting::{Part, quote};
use report_wording::lines;
use report_wording::writing::say;
use std::io::Stdout;

fn warned(out: Stdout, grammar: &[u8], at: usize, part: Part, sentence: &[u8]) {
    say(out, b"Warning: ");
    lines::place(out, grammar, at);
    in_rule(out, grammar, at);
    say(out, b":  ");
    quote(out, grammar, at, part);
    say(out, b"\n    ");
    say(out, sentence);
}

// A range whose set of strings is empty (a uint's or sint's is refused).
fn field(out: Stdout, grammar: &[u8], table: &[u32], first: &[u64], i: usize) {
    if 0 < width_of(table, i) && lookahead::is_empty(set_at(first, i)) {
        warned(
            out,
            grammar,
            place_of(grammar, i),
            Part::Field,
            b"admits no value: no frame matches where it must come.\n",
        );
    }
}

fn fields(out: Stdout, grammar: &[u8], table: &[u32], first: &[u64]) {
    for i in 0..256 {
        field(out, grammar, table, first, i);
    }
}

fn case(out: Stdout, grammar: &[u8], table: &[u32], i: usize) {
    let sentence: &[u8] = if never_holds(table, i) {
        b"is a case that is never chosen: its condition never holds.\n"
    } else if always_before(table, i) {
        b"is a case that is never chosen: one before it always is.\n"
    } else {
        return;
    };
    warned(out, grammar, place_of(grammar, i), Part::Whole, sentence);
}

fn cases(out: Stdout, grammar: &[u8], table: &[u32]) {
    for i in 0..256 {
        case(out, grammar, table, i);
    }
}

fn whole(out: Stdout, first: &[u64]) {
    if lookahead::is_empty(set_at(first, 0)) {
        say(out, b"Warning: no frame at all matches this grammar.\n");
    }
}

pub fn told(out: Stdout, grammar: &[u8], table: &[u32]) {
    let mut first = [0u64; 2056];
    sets::first(table, &mut first);
    whole(out, &first);
    fields(out, grammar, table, &first);
    cases(out, grammar, table);
}
