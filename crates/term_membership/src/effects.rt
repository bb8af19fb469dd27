// What a term does to the numbers and tests that wait, whatever value is tried. Values are counted from the least of a width on: `offset` is added to
// the ends of items.
ghost use Rattle.std.specs.Prelude.{◌≡◌, not, ◌^◌, ◌≤◌, pos, ◌+ℤ◌};
ghost use Rattle.std.specs.Int.Signed.{non_neg};
ghost use Rattle.term_words.specs.Numbers.{top_of, pair_of};
ghost use Rattle.term_membership.specs.Effects.{end_of, low_of, item_of, equal_turn, from_turn, up_to_turn, pair_turn, part_turn, single_turn, turn_of};

use crate::Effect;
use term_integers::{magnitude, negative};
use term_words::stack::{pair, top};
use term_words::step::operate;
use term_words::{Mode, Numbers, Term};

// An end below the least value.
fn below(a: i64, offset: u64) -> bool
    ensures { result ≡ not (non_neg (a +ℤ pos offset)) }
{
    negative(a) && offset < magnitude(a)
}

// An end counted from the least value on, 0 for one below it.
fn raised(a: i64, offset: u64) -> u64
    requires { offset ≤ 2 ^ 63 }
    ensures { result ≡ low_of offset a }
{
    let size = magnitude(a);
    if negative(a) {
        if size < offset {
            return offset - size;
        }
        return 0;
    }
    size + offset
}

// Up to an end.
fn up_to(low: u64, b: i64, offset: u64) -> Effect
    requires { offset ≤ 2 ^ 63 }
    ensures { result ≡ end_of low (b +ℤ pos offset) }
{
    if below(b, offset) {
        return Effect::Within(1, 0);
    }
    Effect::Within(low, raised(b, offset))
}

fn item(a: i64, b: i64, offset: u64) -> Effect
    requires { offset ≤ 2 ^ 63 }
    ensures { result ≡ item_of offset a b }
{
    up_to(raised(a, offset), b, offset)
}

fn equal_turn(numbers: Numbers, offset: u64) -> Option<(Numbers, Effect)>
    requires { offset ≤ 2 ^ 63 }
    ensures { result ≡ equal_turn offset (top_of numbers) }
{
    let (rest, a) = top(numbers)?;
    Some((rest, item(a, a, offset)))
}

fn from_turn(numbers: Numbers, offset: u64) -> Option<(Numbers, Effect)>
    requires { offset ≤ 2 ^ 63 }
    ensures { result ≡ from_turn offset (top_of numbers) }
{
    let (rest, a) = top(numbers)?;
    Some((rest, Effect::From(raised(a, offset))))
}

fn up_to_turn(numbers: Numbers, offset: u64) -> Option<(Numbers, Effect)>
    requires { offset ≤ 2 ^ 63 }
    ensures { result ≡ up_to_turn offset (top_of numbers) }
{
    let (rest, b) = top(numbers)?;
    Some((rest, up_to(0, b, offset)))
}

fn pair_turn(numbers: Numbers, offset: u64) -> Option<(Numbers, Effect)>
    requires { offset ≤ 2 ^ 63 }
    ensures { result ≡ pair_turn offset (pair_of numbers) }
{
    let (rest, a, b) = pair(numbers)?;
    Some((rest, item(a, b, offset)))
}

// The numbers that wait after a term, and its effect; `None` where no value is in the set.
pub fn turn(
    variables: &[i64],
    term: Term,
    numbers: Numbers,
    offset: u64,
) -> Option<(Numbers, Effect)>
    requires { offset ≤ 2 ^ 63 }
    ensures { result ≡ turn_of offset variables.now term numbers }
{
    match term {
        Term::Part(operation) => {
            let rest = operate(Mode::Values, variables, operation, numbers).ok()?;
            Some((rest, Effect::None))
        }
        Term::Single(operation) => {
            equal_turn(
                operate(Mode::Values, variables, operation, numbers).ok()?,
                offset,
            )
        }
        Term::All => Some((numbers, Effect::From(0))),
        Term::Range => pair_turn(numbers, offset),
        Term::From => from_turn(numbers, offset),
        Term::UpTo => up_to_turn(numbers, offset),
        Term::Or => Some((numbers, Effect::Or)),
        Term::Except => Some((numbers, Effect::Except)),
        Term::And | Term::Compare(_) | Term::Bad => None,
    }
}
