// How bits come about: the fields that spell them, in order, each with its line and column.
use crate::places::{definition, place_of};
use crate::signs;
use report_chains::strings::bits;
use report_measures::counts::varies;
use report_measures::lengths::{is_literal, is_signed, width_of};
use report_measures::words::number_at;
use report_quoting::quoting::{Part, end_of, quote, token};
use report_quoting::variables::first_name;
use report_quoting::windows::binary;
use report_wording::lines;
use report_wording::writing::say;
use std::io::Stdout;
use text_parsing::terminals::look;

fn here(out: Stdout, grammar: &[u8], at: usize) {
    say(out, b"        ");
    lines::place(out, grammar, at);
    say(out, b":  ");
}

fn named(out: Stdout, grammar: &[u8], at: usize) {
    say(out, b"the variable ");
    token(out, grammar, first_name(grammar, at));
}

// A set with a variable.
fn set_note(out: Stdout, grammar: &[u8], at: usize) {
    say(
        out,
        b"  counts as every value,\n            since its set uses ",
    );
    named(out, grammar, look(grammar, look(grammar, at).end).end);
    say(out, b"\n");
}

fn counts_note(out: Stdout, grammar: &[u8], at: usize) {
    say(
        out,
        b"            (any number of passes counts as possible, also 0, since its count\n            \
        uses ",
    );
    named(out, grammar, end_of(grammar, at, Part::Field));
    say(out, b")\n");
}

// A literal has its bits in every frame, another field in some.
fn verb(out: Stdout, literal: bool, part: bool) {
    match (literal, part) {
        (true, true) => say(out, b"  begins with "),
        (true, false) => say(out, b"  is "),
        (false, true) => say(out, b"  can begin with "),
        (false, false) => say(out, b"  can be "),
    }
}

// What the bits are of a sint's values.
fn sign_of(out: Stdout, table: &[u32], i: usize, value: usize) {
    if is_signed(table, i) {
        signs::told(out, value, bits(value), width_of(table, i));
    }
}

fn bits_of(out: Stdout, table: &[u32], i: usize, value: usize) {
    verb(out, is_literal(table, i), bits(value) < width_of(table, i));
    binary(out, value, bits(value));
    sign_of(out, table, i, value);
    say(out, b"\n");
}

fn field(out: Stdout, grammar: &[u8], table: &[u32], i: usize, value: usize) {
    let at = place_of(grammar, i);
    here(out, grammar, at);
    quote(out, grammar, at, Part::Field);
    if varies(table, i) {
        set_note(out, grammar, at);
    } else {
        bits_of(out, table, i, value);
    }
}

fn used(out: Stdout, grammar: &[u8], i: usize) {
    let at = place_of(grammar, i);
    here(out, grammar, at);
    token(out, grammar, at);
    say(out, b", the rule of ");
    lines::place(out, grammar, definition(grammar, at));
    say(out, b"\n");
}

fn counts_as(out: Stdout, n: usize) {
    if n == 0 {
        say(out, b"  counts as left out\n");
    } else {
        say(out, b"  counts as coming\n");
    }
}

fn repetition(out: Stdout, grammar: &[u8], i: usize) {
    let at = place_of(grammar, i);
    here(out, grammar, at);
    quote(out, grammar, at, Part::Member);
}

// A body that comes is listed by its fields.
fn repeated(out: Stdout, grammar: &[u8], table: &[u32], i: usize, n: usize) {
    if varies(table, i) {
        repetition(out, grammar, i);
        counts_as(out, n);
        counts_note(out, grammar, place_of(grammar, i));
    } else if n == 0 {
        repetition(out, grammar, i);
        say(out, b"  is left out\n");
    }
}

fn ended(out: Stdout, grammar: &[u8], i: usize) {
    here(out, grammar, place_of(grammar, i));
    say(out, b"eod  takes no bits\n");
}

fn passed_over(out: Stdout, grammar: &[u8], i: usize) {
    let at = place_of(grammar, i);
    here(out, grammar, at);
    quote(out, grammar, at, Part::Field);
    say(
        out,
        b"  takes no bits where no case is\n            true, since it has no default\n",
    );
}

// What comes first needs no word in front.
fn then(out: Stdout, is_first: bool) {
    say(out, b"        ");
    if !is_first {
        say(out, b"then ");
    }
}

fn after_use(out: Stdout, grammar: &[u8], is_first: bool, i: usize) {
    let at = place_of(grammar, i);
    then(out, is_first);
    say(out, b"what comes after ");
    token(out, grammar, at);
    say(out, b" at ");
    lines::place(out, grammar, at);
    say(out, b":\n");
}

fn further(out: Stdout, grammar: &[u8], is_first: bool, i: usize) {
    let at = place_of(grammar, i);
    then(out, is_first);
    say(out, b"a further pass of ");
    quote(out, grammar, at, Part::Member);
    say(out, b" at ");
    lines::place(out, grammar, at);
    say(out, b":\n");
}

fn frame_ends(out: Stdout, is_first: bool) {
    then(out, is_first);
    say(out, b"the frame ends\n");
}

// A step of a chain: a field that is taken (1), a use (2), a repetition (3), the frame's end (4), what comes after a use (5), a further pass (6), the end of
// a chain (7), a switch where no case is true (8); its construct, and a window or a count.
#[derive(Clone, Copy)]
pub struct Step {
    pub tag: usize,
    pub construct: usize,
    pub value: usize,
}

impl Step {
    // What comes first needs no word in front.
    fn print(&self, out: Stdout, grammar: &[u8], table: &[u32], is_first: bool) {
        match self.tag {
            1 => field(out, grammar, table, self.construct, self.value),
            2 => used(out, grammar, self.construct),
            3 => repeated(out, grammar, table, self.construct, self.value),
            4 => ended(out, grammar, self.construct),
            8 => passed_over(out, grammar, self.construct),
            5 => after_use(out, grammar, is_first, self.construct),
            6 => further(out, grammar, is_first, self.construct),
            7 => frame_ends(out, is_first),
            _ => {}
        }
    }

    // A set or a count with a variable.
    fn is_free(&self, table: &[u32]) -> bool {
        matches!(self.tag, 1 | 3) && varies(table, self.construct)
    }
}

fn number_of(steps: &[usize], k: usize, n: usize) -> usize {
    number_at(steps, k.saturating_mul(3).saturating_add(n))
}

// Step k: three numbers.
pub fn step_at(steps: &[usize], k: usize) -> Step {
    Step {
        tag: number_of(steps, k, 0),
        construct: number_of(steps, k, 1),
        value: number_of(steps, k, 2),
    }
}

// Whether a set or a count with a variable is among the steps.
pub fn free(table: &[u32], steps: &[usize], count: usize) -> bool {
    (0..count).any(|k| step_at(steps, k).is_free(table))
}

// Entries from 9 on are not printed.
pub fn listed(out: Stdout, grammar: &[u8], table: &[u32], steps: &[usize], count: usize) {
    let mut is_first = true;
    for k in 0..count {
        let step = step_at(steps, k);
        step.print(out, grammar, table, is_first);
        is_first = is_first && 8 < step.tag;
    }
}
