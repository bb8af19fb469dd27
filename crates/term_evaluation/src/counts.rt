// The counts of a repetition.
ghost use Rattle.std.specs.Prelude.{◌≡◌};
ghost use Rattle.basis.specs.Counts.{least, exactly, at_least, span};
ghost use Rattle.term_words.specs.Words.{terms};
ghost use Rattle.term_evaluation.specs.Counts.{shown, form_of, calculations_end, of_one, of_two, of_numbers, of_trial, tallied, counts};

use crate::short::{LIMIT, number_at, spanned, variable_at, within};
use crate::{Allowed, Form, Tally, work_out};
use term_integers::{magnitude, negative};
use term_words::decode::term_at;
use term_words::{Kind, Mode, Numbers, Term, TermError};

fn from_zero(a: i64) -> u64
    ensures { result ≡ least a }
{
    if negative(a) { 0 } else { magnitude(a) }
}

// `{n}`; a negative n leaves no count.
pub fn exact(n: i64) -> Result<Allowed, TermError>
    ensures { result ≡ shown (exactly n) }
{
    if negative(n) {
        return Ok(Allowed::None);
    }
    Ok(Allowed::Within {
        low: from_zero(n),
        more: 0,
    })
}

// `{a~}`
pub fn open(a: i64) -> Result<Allowed, TermError>
    ensures { result ≡ shown (at_least a) }
{
    Ok(Allowed::From { low: from_zero(a) })
}

// `{a~b}`, and `{~b}` with a = 0
pub fn closed(a: i64, b: i64) -> Result<Allowed, TermError>
    ensures { result ≡ shown (span a b) }
{
    if negative(b) {
        return Ok(Allowed::None);
    }
    let low = from_zero(a);
    let high = magnitude(b);
    if low <= high {
        return Ok(Allowed::Within {
            low,
            more: high - low,
        });
    }
    Ok(Allowed::None)
}

// How counts are written, by their last term.
fn form(last: Term) -> Form
    ensures { result ≡ form_of last }
{
    match last {
        Term::Range => Form::Closed,
        Term::From => Form::Open,
        Term::UpTo => Form::UpTo,
        _ => Form::Exact,
    }
}

fn of_one(form: Form, a: i64) -> Result<Allowed, TermError>
    ensures { result ≡ of_one form a }
{
    match form {
        Form::Exact => exact(a),
        Form::Open => open(a),
        Form::UpTo => closed(0, a),
        Form::Closed => Err(TermError::Malformed),
    }
}

fn of_two(form: Form, a: i64, b: i64) -> Result<Allowed, TermError>
    ensures { result ≡ of_two form a b }
{
    match form {
        Form::Closed => closed(a, b),
        _ => Err(TermError::Malformed),
    }
}

fn of_numbers(form: Form, numbers: Numbers) -> Result<Allowed, TermError>
    ensures { result ≡ of_numbers form numbers }
{
    match numbers {
        Numbers::One(a) => of_one(form, a),
        Numbers::Two(a, b) => of_two(form, a, b),
        _ => Err(TermError::Malformed),
    }
}

fn of_trial(form: Form, trial: Result<(Numbers, u64), TermError>) -> Result<Allowed, TermError>
    ensures { result ≡ of_trial form trial }
{
    let (numbers, _) = trial?;
    of_numbers(form, numbers)
}

// Where the calculations of counts end: before their `~`, where they have one.
fn calculations(form: Form, last: usize, end: usize) -> usize
    ensures { result ≡ calculations_end form last end }
{
    match form {
        Form::Exact => end,
        _ => last,
    }
}

// The counts that the terms from `start` up to `end` allow, or what is worked out of their sizes.
pub fn tally(mode: Mode, words: &[u32], start: usize, end: usize, values: &[i64]) -> Tally
    ensures { result ≡ tallied mode values.now words.now start end }
{
    if end <= start {
        return Tally {
            counted: Err(TermError::Malformed),
            at: start,
        };
    }
    let last = end - 1;
    let shape = form(term_at(words, last));
    let stop = calculations(shape, last, end);
    let ended = work_out(Kind::Calculation, mode, words, start, stop, values, 0);
    let trial = ended.trial;
    let at = ended.at;
    let counted = of_trial(shape, trial);
    Tally { counted, at }
}

// The counts of a repetition, of any terms.
pub fn count_at_length(
    words: &[u32],
    start: usize,
    end: usize,
    values: &[i64],
) -> Result<Allowed, TermError>
    ensures { result ≡ counts values.now words.now start end }
{
    let all = tally(Mode::Values, words, start, end, values);
    let counted = all.counted;
    counted
}

// The counts of a repetition. Most are `n`, a number or a variable, or `a~b`, `a~` or `~b` of numbers.
pub fn count(words: &[u32], start: usize, end: usize, values: &[i64]) -> Result<Allowed, TermError>
    ensures { result ≡ counts values.now words.now start end }
{
    if start < end && end <= words.len() / 3 {
        let size = end - start;
        if size == 1 {
            let n = number_at(words, start, 1);
            if n <= LIMIT {
                return Ok(Allowed::Within { low: n, more: 0 });
            }
            let m = variable_at(words, start, values);
            if within(m) {
                return exact(m);
            }
        }
        if size == 3 && words[start * 3 + 6] == 8 {
            let a = number_at(words, start, 1);
            let b = number_at(words, start + 1, 1);
            if a <= LIMIT && b <= LIMIT {
                return spanned(a, b);
            }
        }
        if size == 2 {
            let sign = words[start * 3 + 3];
            let a = number_at(words, start, 1);
            if a <= LIMIT {
                if sign == 9 {
                    return Ok(Allowed::From { low: a });
                }
                if sign == 10 {
                    return spanned(0, a);
                }
            }
        }
    }
    count_at_length(words, start, end, values)
}
