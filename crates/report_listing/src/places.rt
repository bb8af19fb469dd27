// Places of a grammar's text, by what stands there.
use report_places::{Located, Query, locate};
use report_quoting::quoting::{Part, quote, token};
use report_wording::lines;
use report_wording::writing::say;
use std::io::Stdout;

// A construct's first byte.
pub fn place_of(grammar: &[u8], i: usize) -> usize {
    match locate(grammar, Query::Construct(i)) {
        Located::Construct { place, .. } => place,
        _ => 0,
    }
}

fn name_at(grammar: &[u8], query: Query) -> usize {
    match locate(grammar, query) {
        Located::Place(place) => place,
        _ => usize::MAX,
    }
}

// The name of the rule that a place lies in.
pub fn owner(grammar: &[u8], at: usize) -> usize {
    name_at(grammar, Query::Owner(at))
}

// The rule that has the name at a place.
pub fn definition(grammar: &[u8], at: usize) -> usize {
    name_at(grammar, Query::Definition(at))
}

// The first name at fault from a place on.
pub fn fault_from(grammar: &[u8], at: usize) -> Option<usize> {
    match locate(grammar, Query::Fault(at)) {
        Located::Place(place) if place < grammar.len() => Some(place),
        _ => None,
    }
}

// A line of a list: the place, and what stands there.
pub fn part_at(out: Stdout, grammar: &[u8], at: usize, part: Part) {
    say(out, b"    ");
    lines::place(out, grammar, at);
    say(out, b":  ");
    quote(out, grammar, at, part);
    say(out, b"\n");
}

// The rule that a place lies in, by its name.
pub fn in_rule(out: Stdout, grammar: &[u8], at: usize) {
    say(out, b", in the rule ");
    token(out, grammar, owner(grammar, at));
}
