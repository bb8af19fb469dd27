// Calculations: `+ -` from the left, then `*`, then at most one unary minus. `o` is the first byte of the calculation.
ghost use Rattle.std.specs.Prelude.{◌≡◌, ◌<◌, [], ◌∷◌, MatchOption};
ghost use Rattle.text_parsing.specs.Cursors.{ReadsTerms};
ghost use Rattle.text_parsing.specs.Form.{sum_tag};
ghost use Rattle.text_parsing.specs.Symbols.{primary as primaryOf, operand as operandOf, factors as factorsOf, summands as summandsOf, calculation as calculationOf};

use text_parsing::Cursor;
use text_parsing::reading::{failed, name, passed};
use text_parsing::words::{add_sign, add_term};
use text_store::TERMS_ROOM;

// A number or a variable's use.
fn primary(text: &[u8], c: Cursor, o: usize, terms: &mut [usize; TERMS_ROOM]) -> Cursor
    ensures { ReadsTerms text.now (primaryOf o ∷ []) c terms.old result terms.new }
{
    if c.code == 2 {
        return passed(text, add_term(c, 1, c.value, c.start, o, terms));
    }
    if name(c.code) {
        return passed(text, add_term(c, 2, 0, c.start, o, terms));
    }
    failed(c)
}

fn operand(text: &[u8], c: Cursor, o: usize, terms: &mut [usize; TERMS_ROOM]) -> Cursor
    ensures { ReadsTerms text.now (operandOf o ∷ []) c terms.old result terms.new }
{
    if c.code == 45 {
        let r = primary(text, passed(text, c), o, terms);
        return add_sign(r, 6, c.start, o, terms);
    }
    primary(text, c, o, terms)
}

fn factors(text: &[u8], from: Cursor, o: usize, terms: &mut [usize; TERMS_ROOM]) -> Cursor
    ensures { ReadsTerms text.now (factorsOf o ∷ []) from terms.old result terms.new }
{
    let mut c = from;
    while c.code == 42 {
        let p = c.start;
        let r = operand(text, passed(text, c), o, terms);
        c = add_sign(r, 5, p, o, terms);
    }
    c
}

// The tag of `+` and `-`.
fn sum_tag(code: usize) -> Option<usize>
    ensures { MatchOption result (sum_tag code ≡ 0) (λ tag. (0 < tag) × (tag ≡ sum_tag code)) }
{
    match code {
        43 => Some(3),
        45 => Some(4),
        _ => None,
    }
}

fn summands(text: &[u8], from: Cursor, o: usize, terms: &mut [usize; TERMS_ROOM]) -> Cursor
    ensures { ReadsTerms text.now (summandsOf o ∷ []) from terms.old result terms.new }
{
    let mut c = from;
    while let Some(tag) = sum_tag(c.code) {
        let p = c.start;
        let a = operand(text, passed(text, c), o, terms);
        let r = factors(text, a, o, terms);
        c = add_sign(r, tag, p, o, terms);
    }
    c
}

pub fn calculation(text: &[u8], c: Cursor, terms: &mut [usize; TERMS_ROOM]) -> Cursor
    ensures { ReadsTerms text.now (calculationOf ∷ []) c terms.old result terms.new }
{
    let o = c.start;
    let a = operand(text, c, o, terms);
    let r = factors(text, a, o, terms);
    summands(text, r, o, terms)
}
