// The stack of numbers that wait for a sign.
ghost use Rattle.std.specs.Prelude.{◌≡◌};
ghost use Rattle.term_words.specs.Numbers.{pushed, kept, top_of, pair_of};

use crate::{Numbers, TermError};

fn push(numbers: Numbers, last: i64) -> Result<Numbers, TermError>
    ensures { result ≡ pushed numbers last }
{
    match numbers {
        Numbers::Zero => Ok(Numbers::One(last)),
        Numbers::One(a) => Ok(Numbers::Two(a, last)),
        Numbers::Two(a, b) => Ok(Numbers::Three(a, b, last)),
        Numbers::Three(a, b, c) => Ok(Numbers::Four(a, b, c, last)),
        Numbers::Four(_, _, _, _) => Err(TermError::Malformed),
    }
}

// Puts a result on the stack, where there is one.
pub fn keep(numbers: Numbers, res: Option<i64>) -> Result<Numbers, TermError>
    ensures { result ≡ kept numbers res }
{
    push(numbers, res.ok_or(TermError::Overflow)?)
}

// The last number, and those below it.
pub fn top(numbers: Numbers) -> Option<(Numbers, i64)>
    ensures { result ≡ top_of numbers }
{
    match numbers {
        Numbers::Zero => None,
        Numbers::One(a) => Some((Numbers::Zero, a)),
        Numbers::Two(a, b) => Some((Numbers::One(a), b)),
        Numbers::Three(a, b, c) => Some((Numbers::Two(a, b), c)),
        Numbers::Four(a, b, c, d) => Some((Numbers::Three(a, b, c), d)),
    }
}

// The last two numbers, and those below them.
pub fn pair(numbers: Numbers) -> Option<(Numbers, i64, i64)>
    ensures { result ≡ pair_of numbers }
{
    match numbers {
        Numbers::Zero | Numbers::One(_) => None,
        Numbers::Two(a, b) => Some((Numbers::Zero, a, b)),
        Numbers::Three(a, b, c) => Some((Numbers::One(a), b, c)),
        Numbers::Four(a, b, c, d) => Some((Numbers::Two(a, b), c, d)),
    }
}
