// Refusal 9: how what is repeated can take no bits.
ghost use Rattle.report_chain_steps.specs.Told.{FirstFamily};

use crate::sides::next;
use report_chain_checks::chains as checked;
use report_listing::places::{part_at, place_of};
use report_listing::{chains, sets};
use report_quoting::quoting::{Part, end_of};
use report_wording::writing::say;
use std::io::Stdout;
use text_parsing::terminals::look;

// The place of a repetition's sign.
fn mark_of(grammar: &[u8], construct: usize) -> usize {
    let end = end_of(grammar, place_of(grammar, construct), Part::Field);
    look(grammar, end).start
}

// A repetition, and how its body takes nothing; of a body with 8 passes and more that take nothing no list is made.
fn body(out: Stdout, grammar: &[u8], table: &[u32], first: &[u64], construct: usize)
    requires { FirstFamily table.now first.now }
{
    let mut steps = [0usize; 3072];
    part_at(out, grammar, place_of(grammar, construct), Part::Member);
    let count = checked::takes_nothing(table, first, &mut steps, next(construct));
    if count == 0 {
        say(out, b"        every part of it may take nothing\n");
    } else {
        chains::listed(out, grammar, table, &steps, count);
    }
}

// Whether a count with a variable is on the way.
fn is_free(table: &[u32], first: &[u64], construct: usize) -> bool
    requires { FirstFamily table.now first.now }
{
    let mut steps = [0usize; 3072];
    let count = checked::takes_nothing(table, first, &mut steps, next(construct));
    chains::free(table, &steps, count)
}

// The repetitions whose body may be empty, by where their sign stands.
fn is_here(grammar: &[u8], table: &[u32], first: &[u64], i: usize, at: usize) -> bool {
    sets::empty_body(table, first, i) && mark_of(grammar, i) == at
}

fn is_other(grammar: &[u8], table: &[u32], first: &[u64], i: usize, at: usize) -> bool {
    sets::empty_body(table, first, i) && mark_of(grammar, i) != at
}

fn others(out: Stdout, grammar: &[u8], table: &[u32], first: &[u64], at: usize)
    requires { FirstFamily table.now first.now }
{
    let mut is_first = true;
    for i in 0..256 {
        if is_other(grammar, table, first, i, at) {
            if is_first {
                say(out, b"The same is wrong here:\n");
            }
            is_first = false;
            body(out, grammar, table, first, i);
        }
    }
}

fn told(out: Stdout, grammar: &[u8], table: &[u32], at: usize) {
    let mut first = [0u64; 2056];
    table_first_follow::first::first(table, &mut first);
    let construct = (0..256)
        .find(|&i| is_here(grammar, table, &first, i, at))
        .unwrap_or(256);
    let free = is_free(table, &first, construct);
    report_advice::rest::empty_body(out, free);
    body(out, grammar, table, &first, construct);
    report_advice::rest::change_empty_body(out, free);
    others(out, grammar, table, &first, at);
}

pub fn explained(out: Stdout, grammar: &[u8], at: usize) {
    let words = sets::encoded(grammar).words;
    told(out, grammar, &words, at);
}
