// A list of terms worked out: calculations, sets and conditions.
#![tactic(auto)]

pub mod counts;
pub mod patterns;
mod short;
pub mod variables;

ghost use Rattle.std.specs.Prelude.{◌≡◌, pos};
ghost use Rattle.term_words.specs.Words.{terms};
ghost use Rattle.term_evaluation.specs.Meaning.{run, alone_of, number_of, last_of, verdict_of, calculation, membership, condition};

use crate::short::{LIMIT, between, compared, from, number_at, same, up_to, variable_at, within};
use term_words::decode::term_at;
use term_words::step::step;
use term_words::{Kind, Mode, Numbers, TermError};

// A list's end: the numbers and tests that wait there, and the number of the term at which it ended. The tests are a number: a 1 followed by a digit for
// each, the last one last.
#[derive(Clone, Copy)]
pub struct Ended {
    pub trial: Result<(Numbers, u64), TermError>,
    pub at: usize,
}

// The counts that are allowed: none, from `low` on, or `low` and up to `more` above it.
#[derive(Clone, Copy)]
pub enum Allowed {
    None,
    From { low: u64 },
    Within { low: u64, more: u64 },
}

// Counts, and the number of the term at which their calculations ended.
#[derive(Clone, Copy)]
pub struct Tally {
    pub counted: Result<Allowed, TermError>,
    pub at: usize,
}

// How counts are written: `{n}`, `{a~}`, `{~b}` or `{a~b}`.
#[derive(Clone, Copy)]
pub enum Form {
    Exact,
    Open,
    UpTo,
    Closed,
}

// The terms from `start` up to `end`, as a list of a kind; `value` is what a set is tried on.
pub fn work_out(
    kind: Kind,
    mode: Mode,
    words: &[u32],
    start: usize,
    end: usize,
    values: &[i64],
    value: i64,
) -> Ended
    ensures { result ≡ run kind mode values.now value start (terms words.now start end) Numbers.Zero 1 }
{
    let mut numbers = Numbers::Zero;
    let mut truths: u64 = 1;
    let mut at = start;
    while at < end {
        match step(
            kind,
            mode,
            values,
            value,
            term_at(words, at),
            numbers,
            truths,
        ) {
            Ok((next, more)) => {
                numbers = next;
                truths = more;
            }
            Err(error) => {
                return Ended {
                    trial: Err(error),
                    at,
                };
            }
        }
        at += 1;
    }
    Ended {
        trial: Ok((numbers, truths)),
        at,
    }
}

fn alone(numbers: Numbers) -> Result<i64, TermError>
    ensures { result ≡ alone_of numbers }
{
    match numbers {
        Numbers::One(a) => Ok(a),
        _ => Err(TermError::Malformed),
    }
}

pub fn number(trial: Result<(Numbers, u64), TermError>) -> Result<i64, TermError>
    ensures { result ≡ number_of trial }
{
    let (numbers, _) = trial?;
    alone(numbers)
}

fn last(numbers: Numbers, truths: u64) -> Result<bool, TermError>
    ensures { result ≡ last_of numbers truths }
{
    match (numbers, truths) {
        (Numbers::Zero, 2) => Ok(false),
        (Numbers::Zero, 3) => Ok(true),
        _ => Err(TermError::Malformed),
    }
}

pub fn verdict(trial: Result<(Numbers, u64), TermError>) -> Result<bool, TermError>
    ensures { result ≡ verdict_of trial }
{
    let (numbers, truths) = trial?;
    last(numbers, truths)
}

// The value of a calculation.
pub fn calculate(words: &[u32], start: usize, end: usize, values: &[i64]) -> Result<i64, TermError>
    ensures { result ≡ calculation values.now start (terms words.now start end) }
{
    let ended = work_out(
        Kind::Calculation,
        Mode::Values,
        words,
        start,
        end,
        values,
        0,
    );
    number(ended.trial)
}

// Whether a value is in a set, of any terms.
fn contains_at_length(
    words: &[u32],
    start: usize,
    end: usize,
    values: &[i64],
    value: i64,
) -> Result<bool, TermError>
    ensures { result ≡ membership values.now value start (terms words.now start end) }
{
    let ended = work_out(Kind::Set, Mode::Values, words, start, end, values, value);
    verdict(ended.trial)
}

// Whether a value is in a set. Most sets are `~`, `a`, `a~b`, `a~` or `~b` of numbers, which their words tell at once.
pub fn contains(
    words: &[u32],
    start: usize,
    end: usize,
    values: &[i64],
    value: i64,
) -> Result<bool, TermError>
    ensures { result ≡ membership values.now value start (terms words.now start end) }
{
    if start < end && end <= words.len() / 3 {
        let size = end - start;
        if size == 1 {
            if words[start * 3] == 7 {
                return Ok(true);
            }
            let a = number_at(words, start, 33);
            if a <= LIMIT {
                return same(a, value);
            }
        }
        if size == 3 && words[start * 3 + 6] == 8 {
            let a = number_at(words, start, 1);
            let b = number_at(words, start + 1, 1);
            if a <= LIMIT && b <= LIMIT {
                return between(a, b, value);
            }
        }
        if size == 2 {
            let sign = words[start * 3 + 3];
            let a = number_at(words, start, 1);
            if a <= LIMIT {
                if sign == 9 {
                    return from(a, value);
                }
                if sign == 10 {
                    return up_to(a, value);
                }
            }
        }
    }
    contains_at_length(words, start, end, values, value)
}

// Whether a condition holds, of any terms.
fn satisfied_at_length(
    words: &[u32],
    start: usize,
    end: usize,
    values: &[i64],
) -> Result<bool, TermError>
    ensures { result ≡ condition values.now start (terms words.now start end) }
{
    let ended = work_out(Kind::Condition, Mode::Values, words, start, end, values, 0);
    verdict(ended.trial)
}

// Whether a condition holds. Most compare a variable with a number.
pub fn satisfied(words: &[u32], start: usize, end: usize, values: &[i64]) -> Result<bool, TermError>
    ensures { result ≡ condition values.now start (terms words.now start end) }
{
    if start < end && end <= words.len() / 3 && end - start == 3 {
        let tag = words[start * 3 + 6];
        let a = variable_at(words, start, values);
        let b = number_at(words, start + 1, 1);
        if within(a) && b <= LIMIT && 14 <= tag && tag <= 19 {
            return compared(tag, a, b);
        }
    }
    satisfied_at_length(words, start, end, values)
}
