// Conditions of switches.
ghost use Rattle.std.specs.Prelude.{◌≡◌, ◌<◌, [], ◌∷◌, true, MatchOption};
ghost use Rattle.text_parsing.specs.Cursors.{ReadsTerms};
ghost use Rattle.text_parsing.specs.Terminals.{live};
ghost use Rattle.text_parsing.specs.Form.{comparison_tag};
ghost use Rattle.text_parsing.specs.Symbols.{comparison as comparison_of, test as test_of, chain as chainOf, condition as conditionOf};

use crate::calculations::calculation;
use basis::MAX_NESTING;
use text_parsing::Cursor;
use text_parsing::reading::{failed, passed, want};
use text_parsing::words::add_sign;
use text_store::TERMS_ROOM;

// The tag of a comparison.
fn comparison_tag(code: usize) -> Option<usize>
    ensures { MatchOption result (comparison_tag code ≡ 0) (λ tag. (0 < tag) × (tag ≡ comparison_tag code)) }
{
    match code {
        61 => Some(14),
        161 => Some(15),
        60 => Some(16),
        188 => Some(17),
        62 => Some(18),
        190 => Some(19),
        _ => None,
    }
}

fn comparison(text: &[u8], c: Cursor, terms: &mut [usize; TERMS_ROOM]) -> Cursor
    ensures { ReadsTerms text.now (comparison_of ∷ []) c terms.old result terms.new }
{
    let Some(tag) = comparison_tag(c.code) else {
        return failed(c);
    };
    let r = calculation(text, passed(text, c), terms);
    add_sign(r, tag, c.start, 0, terms)
}

#[cycle(chain_condition_test)]
fn test(text: &[u8], c: Cursor, d: usize, terms: &mut [usize; TERMS_ROOM]) -> Cursor
    ensures { ReadsTerms text.now (test_of d ∷ []) c terms.old result terms.new }
{
    match c.code {
        40 if d < MAX_NESTING => {
            let r = condition(text, passed(text, c), d + 1, terms);
            want(text, r, 41)
        }
        40 => failed(c),
        _ => {
            let r = calculation(text, c, terms);
            comparison(text, r, terms)
        }
    }
}

#[cycle(chain_condition_test)]
fn chain(
    text: &[u8],
    from: Cursor,
    code: usize,
    tag: usize,
    d: usize,
    terms: &mut [usize; TERMS_ROOM],
) -> Cursor
    requires { live code ≡ true }
    ensures { ReadsTerms text.now (chainOf code tag d ∷ []) from terms.old result terms.new }
{
    let mut c = from;
    while c.code == code {
        let p = c.start;
        let r = test(text, passed(text, c), d, terms);
        c = add_sign(r, tag, p, 0, terms);
    }
    c
}

#[cycle(chain_condition_test)]
pub fn condition(text: &[u8], c: Cursor, d: usize, terms: &mut [usize; TERMS_ROOM]) -> Cursor
    ensures { ReadsTerms text.now (conditionOf d ∷ []) c terms.old result terms.new }
{
    let r = test(text, c, d, terms);
    match r.code {
        38 => chain(text, r, 38, 13, d, terms),
        124 => chain(text, r, 124, 11, d, terms),
        _ => r,
    }
}
