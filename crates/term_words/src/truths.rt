// The tests that wait, as a number: a 1 followed by a digit for each, the last one last.
ghost use Rattle.std.specs.Prelude.{◌≡◌};
ghost use Rattle.term_words.specs.Tests.{noted, joins, combined};

use crate::{Joint, Numbers, TermError};

pub fn note(numbers: Numbers, truths: u64, truth: bool) -> Result<(Numbers, u64), TermError>
    ensures { result ≡ noted numbers truths truth }
{
    if truths < 4611686018427387904 {
        if truth {
            return Ok((numbers, truths * 2 + 1));
        }
        return Ok((numbers, truths * 2));
    }
    Err(TermError::Malformed)
}

fn joined(joint: Joint, x: bool, y: bool) -> bool
    ensures { result ≡ joins joint x y }
{
    match joint {
        Joint::Or => x || y,
        Joint::And => x && y,
        Joint::Except => !y && x,
    }
}

// Joins the last two tests.
pub fn combine(joint: Joint, numbers: Numbers, truths: u64) -> Result<(Numbers, u64), TermError>
    ensures { result ≡ combined joint numbers truths }
{
    if truths < 4 {
        return Err(TermError::Malformed);
    }
    let x = truths / 2 % 2 == 1;
    let y = truths % 2 == 1;
    note(numbers, truths / 4, joined(joint, x, y))
}
