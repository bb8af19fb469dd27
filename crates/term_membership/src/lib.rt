// Whether each of 64 values is in a set. One pass over the set's terms serves them all: what is read from the words is read once for 64.
#![tactic(auto)]

pub mod effects;
mod truths;

ghost use Rattle.std.specs.Prelude.{◌≡◌, ℕ, ◌+◌, ◌^◌, ◌≤◌, ◌<◌, List, false, eqb, get_or};
ghost use Rattle.lookahead.specs.Sets.{bit};
ghost use Rattle.term_membership.specs.Truths.{waiting};
ghost use Rattle.term_words.specs.Words.{terms};
ghost use Rattle.term_membership.specs.Members.{holds_from};
ghost use Rattle.term_membership.specs.Batches.{ends};

use crate::effects::turn;
use crate::truths::apply_all;
use lookahead::words::same;
use term_words::Numbers;
use term_words::decode::term_at;

// What a term does to the tests that wait: nothing, a test of the value, or two tests become one. Values are counted from the least on; `Within` has its
// first value and its last.
#[derive(Clone, Copy)]
pub enum Effect {
    None,
    Within(u64, u64),
    From(u64),
    Or,
    Except,
}

// No value.
fn nothing() -> [u64; 64]
    ensures { (j : ℕ) → j < 64 → false ≡ eqb (get_or result j 0) 3 }
{
    [0; 64]
}

// 3 for each bit of a word that is 1, and 2 for each that is 0.
fn spread(test: u64) -> [u64; 64]
    ensures { (j : ℕ) → j < 64 → get_or result j 0 ≡ 2 + bit test j }
{
    let mut out = [0u64; 64];
    for j in 0..64 {
        out[j] = 2 + (test >> j) % 2;
    }
    out
}

// One test waits, `test`.
fn alone(count: usize, test: u64) -> [u64; 64]
    ensures { (masks : List ℕ) → get_or masks 0 0 ≡ test → (j : ℕ) → j < 64 → eqb (waiting masks count j) 3 ≡ eqb (get_or result j 0) 3 }
{
    if count == 1 {
        return spread(test);
    }
    nothing()
}

// A list's end: one test and no number.
fn ended(numbers: Numbers, count: usize, test: u64) -> [u64; 64]
    ensures { (masks : List ℕ) → get_or masks 0 0 ≡ test → (j : ℕ) → j < 64 → ends numbers (waiting masks count j) ≡ eqb (get_or result j 0) 3 }
{
    match numbers {
        Numbers::Zero => alone(count, test),
        Numbers::One(_) => nothing(),
        Numbers::Two(_, _) => nothing(),
        Numbers::Three(_, _, _) => nothing(),
        Numbers::Four(_, _, _, _) => nothing(),
    }
}

// 3 for each value that is in the set of the terms from `start` up to `end`, another number for each that is not. A value is given as the natural number
// that is `offset` above it.
pub fn contains_all(
    words: &[u32],
    start: usize,
    end: usize,
    variables: &[i64],
    offset: u64,
    values: &[u64; 64],
) -> [u64; 64]
    requires { offset ≤ 2 ^ 63 }
    ensures { (j : ℕ) → j < 64 → holds_from offset variables.now start (terms words.now start end) (get_or values.now j 0) ≡ eqb (get_or result j 0) 3 }
{
    let mut masks = [0u64; 64];
    let mut count = 0;
    let mut numbers = Numbers::Zero;
    for at in start..end {
        let Some((next, effect)) = turn(variables, term_at(words, at), numbers, offset) else {
            return nothing();
        };
        count = apply_all(effect, values, &mut masks, count);
        numbers = next;
    }
    ended(numbers, count, same(masks[0]))
}
