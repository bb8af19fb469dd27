// What one term does to the numbers and tests that wait.
ghost use Rattle.std.specs.Prelude.{◌≡◌, ◌+ℤ◌, ◌*ℤ◌};
ghost use Rattle.term_words.specs.Steps.{variable_of, binary, unary, operated, operate_of, after_of, equal_to, within, from, up_to, compares, compared, calculation_step, set_step, condition_step, step_of};
ghost use Rattle.term_words.specs.Numbers.{pair_of, top_of, difference_of, opposite_of};

use crate::modes::{difference, turned};
use crate::stack::{keep, pair, top};
use crate::truths::{combine, note};
use crate::{Comparison, Joint, Kind, Mode, Numbers, Operation, Term, TermError};
use term_integers::{add, at_most, equal, in_bounds, multiply, whole};

fn variable(values: &[i64], at: usize, numbers: Numbers) -> Result<Numbers, TermError>
    ensures { result ≡ variable_of values.now at numbers }
{
    if at < values.len() {
        let value = values[at];
        return keep(numbers, in_bounds(value));
    }
    Err(TermError::Malformed)
}

fn sum(numbers: Numbers) -> Result<Numbers, TermError>
    ensures { result ≡ binary ◌+ℤ◌ (pair_of numbers) }
{
    let (rest, a, b) = pair(numbers).ok_or(TermError::Malformed)?;
    keep(rest, add(a, b))
}

fn reduce(mode: Mode, numbers: Numbers) -> Result<Numbers, TermError>
    ensures { result ≡ binary (difference_of mode) (pair_of numbers) }
{
    let (rest, a, b) = pair(numbers).ok_or(TermError::Malformed)?;
    keep(rest, difference(mode, a, b))
}

fn product(numbers: Numbers) -> Result<Numbers, TermError>
    ensures { result ≡ binary ◌*ℤ◌ (pair_of numbers) }
{
    let (rest, a, b) = pair(numbers).ok_or(TermError::Malformed)?;
    keep(rest, multiply(a, b))
}

fn turn(mode: Mode, numbers: Numbers) -> Result<Numbers, TermError>
    ensures { result ≡ unary (opposite_of mode) (top_of numbers) }
{
    let (rest, a) = top(numbers).ok_or(TermError::Malformed)?;
    keep(rest, turned(mode, a))
}

pub fn operate(
    mode: Mode,
    values: &[i64],
    operation: Operation,
    numbers: Numbers,
) -> Result<Numbers, TermError>
    ensures { result ≡ operate_of mode values.now operation numbers }
{
    match operation {
        Operation::Number(n) => keep(numbers, whole(n)),
        Operation::Variable(at) => variable(values, at, numbers),
        Operation::Add => sum(numbers),
        Operation::Subtract => reduce(mode, numbers),
        Operation::Multiply => product(numbers),
        Operation::Negate => turn(mode, numbers),
        Operation::Unknown => Err(TermError::Malformed),
    }
}

// The item `a`.
fn single(numbers: Numbers, truths: u64, value: i64) -> Result<(Numbers, u64), TermError>
    ensures { result ≡ equal_to value (top_of numbers) truths }
{
    let (rest, a) = top(numbers).ok_or(TermError::Malformed)?;
    note(rest, truths, equal(a, value))
}

// The item `a~b`.
fn range(numbers: Numbers, truths: u64, value: i64) -> Result<(Numbers, u64), TermError>
    ensures { result ≡ within value (pair_of numbers) truths }
{
    let (rest, a, b) = pair(numbers).ok_or(TermError::Malformed)?;
    note(rest, truths, at_most(a, value) && at_most(value, b))
}

// The item `a~`.
fn least(numbers: Numbers, truths: u64, value: i64) -> Result<(Numbers, u64), TermError>
    ensures { result ≡ from value (top_of numbers) truths }
{
    let (rest, a) = top(numbers).ok_or(TermError::Malformed)?;
    note(rest, truths, at_most(a, value))
}

// The item `~b`.
fn greatest(numbers: Numbers, truths: u64, value: i64) -> Result<(Numbers, u64), TermError>
    ensures { result ≡ up_to value (top_of numbers) truths }
{
    let (rest, b) = top(numbers).ok_or(TermError::Malformed)?;
    note(rest, truths, at_most(value, b))
}

pub fn holds(comparison: Comparison, a: i64, b: i64) -> bool
    ensures { result ≡ compares comparison a b }
{
    match comparison {
        Comparison::Equal => equal(a, b),
        Comparison::Unequal => !equal(a, b),
        Comparison::Less => !at_most(b, a),
        Comparison::AtMost => at_most(a, b),
        Comparison::Greater => !at_most(a, b),
        Comparison::AtLeast => at_most(b, a),
    }
}

fn compare(
    comparison: Comparison,
    numbers: Numbers,
    truths: u64,
) -> Result<(Numbers, u64), TermError>
    ensures { result ≡ compared comparison (pair_of numbers) truths }
{
    let (rest, a, b) = pair(numbers).ok_or(TermError::Malformed)?;
    note(rest, truths, holds(comparison, a, b))
}

fn calculation_step(
    mode: Mode,
    values: &[i64],
    term: Term,
    numbers: Numbers,
    truths: u64,
) -> Result<(Numbers, u64), TermError>
    ensures { result ≡ calculation_step mode values.now term numbers truths }
{
    match term {
        Term::Part(operation) => Ok((operate(mode, values, operation, numbers)?, truths)),
        _ => Err(TermError::Malformed),
    }
}

fn set_step(
    mode: Mode,
    values: &[i64],
    value: i64,
    term: Term,
    numbers: Numbers,
    truths: u64,
) -> Result<(Numbers, u64), TermError>
    ensures { result ≡ set_step mode values.now value term numbers truths }
{
    match term {
        Term::Part(operation) => Ok((operate(mode, values, operation, numbers)?, truths)),
        Term::Single(operation) => single(
            operate(mode, values, operation, numbers)?,
            truths,
            value,
        ),
        Term::All => note(numbers, truths, true),
        Term::Range => range(numbers, truths, value),
        Term::From => least(numbers, truths, value),
        Term::UpTo => greatest(numbers, truths, value),
        Term::Or => combine(Joint::Or, numbers, truths),
        Term::Except => combine(Joint::Except, numbers, truths),
        _ => Err(TermError::Malformed),
    }
}

fn condition_step(
    mode: Mode,
    values: &[i64],
    term: Term,
    numbers: Numbers,
    truths: u64,
) -> Result<(Numbers, u64), TermError>
    ensures { result ≡ condition_step mode values.now term numbers truths }
{
    match term {
        Term::Part(operation) => Ok((operate(mode, values, operation, numbers)?, truths)),
        Term::Compare(comparison) => compare(comparison, numbers, truths),
        Term::Or => combine(Joint::Or, numbers, truths),
        Term::And => combine(Joint::And, numbers, truths),
        _ => Err(TermError::Malformed),
    }
}

// One term of a list of a kind; `value` is what a set is tried on.
pub fn step(
    kind: Kind,
    mode: Mode,
    values: &[i64],
    value: i64,
    term: Term,
    numbers: Numbers,
    truths: u64,
) -> Result<(Numbers, u64), TermError>
    ensures { result ≡ step_of kind mode values.now value term numbers truths }
{
    match kind {
        Kind::Calculation => calculation_step(mode, values, term, numbers, truths),
        Kind::Set => set_step(mode, values, value, term, numbers, truths),
        Kind::Condition => condition_step(mode, values, term, numbers, truths),
    }
}
