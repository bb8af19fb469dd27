// How many bits constructs have, as far as bytes go: sets of remainders by 8, a bit for each.
ghost use Rattle.std.specs.Prelude.{◌<◌};

use crate::counts::term_words;
use crate::remainders::{only, star, sum, times, union};
use crate::structure::{body_of, next, parts_of};
use crate::words::{number_at, put_number};
use table_layout::{CONSTRUCTS_AT, Construct, Passes, construct_at, word};
use term_evaluation::Allowed;
use term_words::TermError;

// Eight times more is the same from eight on: the sums have stopped growing, and eight times a remainder is 0.
fn folded(k: u64) -> usize
    ensures { result < 16 }
{
    if k < 16 {
        return k as usize;
    }
    8 + (k % 8) as usize
}

// Sixteen more have all that still more would have.
fn few(k: u64) -> usize {
    if k < 16 { k as usize } else { 16 }
}

fn up_to(set: usize, from: usize, more: u64) -> usize {
    let mut out = from;
    let mut last = from;
    for _k in 0..few(more) {
        last = sum(last, set);
        out = union(out, last);
    }
    out
}

fn counted(set: usize, counts: Result<Allowed, TermError>) -> usize {
    match counts {
        Ok(Allowed::From { low }) => star(set, times(set, folded(low))),
        Ok(Allowed::Within { low, more }) => up_to(set, times(set, folded(low)), more),
        _ => 0,
    }
}

fn listed(table: &[u32], set: usize, start: usize, end: usize) -> usize {
    let words = term_words(table);
    if term_evaluation::variables::has_variable(words, start, end) {
        return star(set, 1);
    }
    let none = [0i64; 1];
    counted(
        set,
        term_evaluation::counts::count(words, start, end, &none[0..0]),
    )
}

fn repeated(table: &[u32], set: usize, passes: Passes) -> usize {
    match passes {
        Passes::Optional => union(1, set),
        Passes::Any => star(set, 1),
        Passes::Some => star(set, set),
        Passes::Counted { start, end } => listed(table, set, start, end),
    }
}

// The lengths of all parts one after the other.
fn all(table: &[u32], lengths: &[usize], i: usize) -> usize {
    parts_of(table, i).fold(1, |before, part| sum(before, number_at(lengths, part)))
}

// The lengths that one of the parts has.
fn any(table: &[u32], lengths: &[usize], i: usize) -> usize {
    parts_of(table, i).fold(0, |others, part| union(others, number_at(lengths, part)))
}

fn has_condition(table: &[u32], j: usize) -> bool {
    255 < j || word(table, CONSTRUCTS_AT + 8 * j + 6) < word(table, CONSTRUCTS_AT + 8 * j + 7)
}

// A switch without a default may have no bits.
fn no_bits(table: &[u32], i: usize) -> usize {
    if parts_of(table, i).all(|case| has_condition(table, case)) {
        1
    } else {
        0
    }
}

fn length_of(table: &[u32], lengths: &[usize], i: usize) -> usize {
    match construct_at(table, i) {
        Construct::Missing => 0,
        Construct::Alternative { .. } => any(table, lengths, i),
        Construct::Concatenation { .. } => all(table, lengths, i),
        Construct::Repetition { passes, .. } => {
            repeated(table, number_at(lengths, next(i)), passes)
        }
        Construct::Switch { .. } => union(no_bits(table, i), any(table, lengths, i)),
        Construct::Use { rule } => number_at(lengths, body_of(table, rule)),
        Construct::Uint { width, .. } => only(width),
        Construct::Literal { .. } | Construct::Range { .. } | Construct::Eod => 1,
    }
}

pub fn is_literal(table: &[u32], i: usize) -> bool {
    matches!(construct_at(table, i), Construct::Literal { .. })
}

// Whether a field's value has a sign.
pub fn is_signed(table: &[u32], i: usize) -> bool {
    table_layout::attributes_of(construct_at(table, i)).signed
}

// How many bits a field has.
pub fn width_of(table: &[u32], i: usize) -> usize {
    match construct_at(table, i) {
        Construct::Literal { length } => bytes(length),
        Construct::Range { .. } => 8,
        Construct::Uint { width, .. } => width,
        _ => 0,
    }
}

fn bytes(length: usize) -> usize {
    if length < 256 { 8 * length } else { 8 }
}

// From the last construct down; what was known does not fall. Whether a number is another one.
fn round(table: &[u32], lengths: &mut [usize]) -> bool {
    let mut changed = false;
    for i in (0..256).rev() {
        let length = length_of(table, lengths, i);
        changed |= length != number_at(lengths, i);
        put_number(lengths, i, length);
    }
    changed
}

// The remainders of the lengths of all constructs. Rules lead to each other at most 64 deep; after a round without a change all rounds are the same.
pub fn lengths(table: &[u32], lengths: &mut [usize]) {
    for _n in 0..65 {
        if !round(table, lengths) {
            return;
        }
    }
}
