// What lists of one, two and three terms are tested by: their numbers and variables, read from the words.
ghost use Rattle.std.specs.Prelude.{◌≡◌, Ok, false, cond, ◌+◌, ◌*◌, ◌^◌, ◌≤◌, ◌<◌, ◌/◌, leb, length, get_or, pos, nat_abs};
ghost use Rattle.std.specs.Int.Signed.{le_z};
ghost use Rattle.basis.specs.Counts.{span};
ghost use Rattle.term_integers.specs.Wholes.{equals};
ghost use Rattle.term_words.specs.Numbers.{pushed};
ghost use Rattle.term_words.specs.Steps.{variable_of, compares};
ghost use Rattle.term_words.specs.Words.{term_at};
ghost use Rattle.term_words.specs.declared.Numbers.{Numbers};
ghost use Rattle.term_evaluation.specs.Counts.{shown};
ghost use Rattle.term_evaluation.specs.Short.{Puts, comparison_of};

use crate::Allowed;
use crate::counts::closed;
use term_integers::{at_most, equal, magnitude, signed};
use term_words::decode::wide;
use term_words::step::holds;
use term_words::{Comparison, TermError};

// 2^62
pub const LIMIT: u64 = 4611686018427387904;

// Past all that a calculation has.
const PAST: i64 = 4611686018427387905;

// The number of a term with this tag; of another one past 2^62.
pub fn number_at(words: &[u32], at: usize, tag: u32) -> u64
    requires { at < length words.now / 3 }
    ensures { result ≤ 2 ^ 62 → (get_or words.now (at * 3) 0 ≡ tag) × (result ≡ get_or words.now (at * 3 + 1) 0 + 4294967296 * get_or words.now (at * 3 + 2) 0) }
{
    let base = at * 3;
    if words[base] == tag {
        let low = words[base + 1];
        let high = words[base + 2];
        return wide(low, high);
    }
    18446744073709551615
}

// The value of a variable; past the list's end a number past 2^62.
fn value_at(values: &[i64], at: u32) -> i64
    ensures { nat_abs result ≤ 2 ^ 62 → ((s : Numbers) → variable_of values.now at s ≡ pushed s result) }
{
    let place = at as usize;
    if place < values.len() {
        let value = values[place];
        return value;
    }
    PAST
}

// The value of the variable that a term uses; of another term a number past 2^62.
pub fn variable_at(words: &[u32], at: usize, values: &[i64]) -> i64
    requires { at < length words.now / 3 }
    ensures { nat_abs result ≤ 2 ^ 62 → Puts values.now (term_at words.now at) result }
{
    let base = at * 3;
    if words[base] == 2 {
        let low = words[base + 1];
        return value_at(values, low);
    }
    PAST
}

pub fn within(a: i64) -> bool
    ensures { result ≡ leb (nat_abs a) (2 ^ 62) }
{
    magnitude(a) <= LIMIT
}

// `a`
pub fn same(a: u64, value: i64) -> Result<bool, TermError>
    requires { a ≤ 2 ^ 62 }
    ensures { result ≡ Ok (equals (pos a) value) }
{
    Ok(equal(signed(a), value))
}

// `a~`
pub fn from(a: u64, value: i64) -> Result<bool, TermError>
    requires { a ≤ 2 ^ 62 }
    ensures { result ≡ Ok (le_z (pos a) value) }
{
    Ok(at_most(signed(a), value))
}

// `~b`
pub fn up_to(b: u64, value: i64) -> Result<bool, TermError>
    requires { b ≤ 2 ^ 62 }
    ensures { result ≡ Ok (le_z value (pos b)) }
{
    Ok(at_most(value, signed(b)))
}

// `a~b`
pub fn between(a: u64, b: u64, value: i64) -> Result<bool, TermError>
    requires { (a ≤ 2 ^ 62) × (b ≤ 2 ^ 62) }
    ensures { result ≡ Ok (cond (le_z (pos a) value) (le_z value (pos b)) false) }
{
    Ok(at_most(signed(a), value) && at_most(value, signed(b)))
}

fn comparison(tag: u32) -> Comparison
    ensures { result ≡ comparison_of tag }
{
    match tag {
        14 => Comparison::Equal,
        15 => Comparison::Unequal,
        16 => Comparison::Less,
        17 => Comparison::AtMost,
        18 => Comparison::Greater,
        _ => Comparison::AtLeast,
    }
}

// A comparison with a tag from 14 to 19.
pub fn compared(tag: u32, a: i64, b: u64) -> Result<bool, TermError>
    requires { b ≤ 2 ^ 62 }
    ensures { result ≡ Ok (compares (comparison_of tag) a (pos b)) }
{
    Ok(holds(comparison(tag), a, signed(b)))
}

// `{a~b}`
pub fn spanned(a: u64, b: u64) -> Result<Allowed, TermError>
    requires { (a ≤ 2 ^ 62) × (b ≤ 2 ^ 62) }
    ensures { result ≡ shown (span (pos a) (pos b)) }
{
    closed(signed(a), signed(b))
}
