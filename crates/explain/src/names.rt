// Refusal 6: a name that is unknown, double, reserved, misplaced or of the wrong kind.
use report_faults::Fault;
use report_listing::places::{fault_from, part_at};
use report_places::{Located, Query, locate};
use report_quoting::nearest::nearest;
use report_quoting::quoting::{Part, token};
use report_wording::lines;
use report_wording::writing::say;
use std::io::Stdout;
use text_header::spans::span;
use text_header::{Class, Heading};
use text_tokens::names::reserved;

fn is_reserved(grammar: &[u8], start: usize, end: usize) -> bool {
    start <= end && end <= grammar.len() && 0 < reserved(&grammar[start..end])
}

fn double(out: Stdout, grammar: &[u8], at: usize) {
    report_advice::names::double(out);
    part_at(out, grammar, at, Part::Whole);
    report_advice::names::change_double(out);
}

fn variable(out: Stdout, grammar: &[u8], at: usize) {
    report_advice::names::variable(out);
    lines::shown(out, grammar, at);
    report_advice::names::change_variable(out);
}

fn twice(out: Stdout, grammar: &[u8], at: usize) {
    report_advice::names::twice(out);
    lines::shown(out, grammar, at);
    report_advice::names::change_twice(out);
}

fn later(out: Stdout, grammar: &[u8], at: usize) {
    report_advice::names::later(out);
    lines::shown(out, grammar, at);
    report_advice::names::change_later(out);
}

fn rule(out: Stdout, grammar: &[u8], at: usize) {
    report_advice::names::rule(out);
    part_at(out, grammar, at, Part::Whole);
    report_advice::names::change_unbound(out);
}

fn elsewhere(out: Stdout, grammar: &[u8], at: usize) {
    report_advice::names::elsewhere(out);
    lines::shown(out, grammar, at);
    report_advice::names::change_elsewhere(out);
}

fn meant(out: Stdout, grammar: &[u8], near: Option<usize>) {
    if let Some(place) = near {
        say(out, b"Is ");
        token(out, grammar, place);
        say(out, b" meant, of ");
        lines::place(out, grammar, place);
        say(out, b"?\n");
    }
}

// A name that is nearly the one at the place.
fn nearly(out: Stdout, grammar: &[u8], at: usize, variable: bool) {
    match text_header::header::header(grammar) {
        Heading::Rules(base) => meant(out, grammar, nearest(grammar, base, at, variable)),
        Heading::Wrong(_) => {}
    }
}

fn no_rule(out: Stdout, grammar: &[u8], at: usize) {
    report_advice::names::no_rule(out);
    nearly(out, grammar, at, false);
    report_advice::names::change_no_rule(out);
}

fn no_variable(out: Stdout, grammar: &[u8], at: usize) {
    report_advice::names::no_variable(out);
    nearly(out, grammar, at, true);
    report_advice::names::change_unbound(out);
}

fn told(out: Stdout, grammar: &[u8], name: usize, fault: Fault) {
    match fault {
        Fault::Double(at) => double(out, grammar, at),
        Fault::NoRule => no_rule(out, grammar, name),
        Fault::Variable(at) => variable(out, grammar, at),
        Fault::Twice(at) => twice(out, grammar, at),
        Fault::Misplaced => report_advice::names::misplaced(out),
        Fault::Later(at) => later(out, grammar, at),
        Fault::Rule(at) => rule(out, grammar, at),
        Fault::Elsewhere(at) => elsewhere(out, grammar, at),
        Fault::NoVariable => no_variable(out, grammar, name),
    }
}

fn fault_at(out: Stdout, grammar: &[u8], at: usize, end: usize) {
    if is_reserved(grammar, at, end) {
        report_advice::names::reserved(out);
        return;
    }
    match locate(grammar, Query::Name(at)) {
        Located::Name(fault) => told(out, grammar, at, fault),
        _ => {}
    }
}

// The number of a fault, for a few words on it.
fn number_of(fault: Fault) -> usize {
    match fault {
        Fault::Double(_) => 1,
        Fault::NoRule => 2,
        Fault::Variable(_) => 3,
        Fault::Twice(_) => 4,
        Fault::Misplaced => 5,
        Fault::Later(_) => 6,
        Fault::Rule(_) => 7,
        Fault::Elsewhere(_) => 8,
        Fault::NoVariable => 9,
    }
}

fn code_at(grammar: &[u8], at: usize, end: usize) -> usize {
    if is_reserved(grammar, at, end) {
        return 0;
    }
    match locate(grammar, Query::Name(at)) {
        Located::Name(fault) => number_of(fault),
        _ => 0,
    }
}

fn line(out: Stdout, grammar: &[u8], at: usize) {
    say(out, b"    ");
    lines::place(out, grammar, at);
    say(out, b":  ");
    token(out, grammar, at);
    say(out, b"  ");
    report_advice::names::brief(out, code_at(grammar, at, span(Class::Name, grammar, at)));
}

fn next(grammar: &[u8], at: usize) -> Option<usize> {
    fault_from(grammar, at.saturating_add(1))
}

// The names at fault after the first, a line each, at most twenty.
fn further(out: Stdout, grammar: &[u8], at: usize) {
    let mut fault = next(grammar, at);
    if fault.is_some() {
        say(
            out,
            b"Further names at fault (some may be right once others are):\n",
        );
    }
    for _ in 0..20usize {
        let Some(place) = fault else {
            return;
        };
        line(out, grammar, place);
        fault = next(grammar, place);
    }
    if fault.is_some() {
        say(out, b"    and more\n");
    }
}

pub fn fault(out: Stdout, grammar: &[u8], at: usize) {
    say(out, b"The name ");
    token(out, grammar, at);
    fault_at(out, grammar, at, span(Class::Name, grammar, at));
    further(out, grammar, at);
}
