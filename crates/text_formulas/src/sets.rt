// Sets of values, and counts in braces.
ghost use Rattle.std.specs.Prelude.{◌≡◌, [], ◌∷◌};
ghost use Rattle.text_parsing.specs.Cursors.{ReadsTerms};
ghost use Rattle.text_parsing.specs.Symbols.{bound as boundOf, item_tail, item as item_of, excluded as excludedOf, alternative as alternativeOf, value_set, counts_tail, counts as countsOf};

use crate::calculations::calculation;
use basis::MAX_NESTING;
use text_parsing::Cursor;
use text_parsing::reading::{begins, failed, passed, want};
use text_parsing::words::add_sign;
use text_store::TERMS_ROOM;
use text_store::stores::mark_single;

// After a `~` at p: a calculation, or none.
fn bound(
    text: &[u8],
    c: Cursor,
    some: usize,
    none: usize,
    p: usize,
    terms: &mut [usize; TERMS_ROOM],
) -> Cursor
    ensures { ReadsTerms text.now (boundOf some none p ∷ []) c terms.old result terms.new }
{
    if begins(c.code) {
        let r = calculation(text, c, terms);
        return add_sign(r, some, p, 0, terms);
    }
    add_sign(c, none, p, 0, terms)
}

fn item_tail(text: &[u8], c: Cursor, terms: &mut [usize; TERMS_ROOM]) -> Cursor
    ensures { ReadsTerms text.now (item_tail ∷ []) c terms.old result terms.new }
{
    if c.code == 126 {
        return bound(text, passed(text, c), 8, 9, c.start, terms);
    }
    mark_single(c.terms, terms);
    c
}

fn item(text: &[u8], c: Cursor, terms: &mut [usize; TERMS_ROOM]) -> Cursor
    ensures { ReadsTerms text.now (item_of ∷ []) c terms.old result terms.new }
{
    if c.code == 126 {
        return bound(text, passed(text, c), 10, 7, c.start, terms);
    }
    let r = calculation(text, c, terms);
    item_tail(text, r, terms)
}

// After `!`.
#[cycle(alternative_excluded_value_set)]
fn excluded(text: &[u8], c: Cursor, d: usize, terms: &mut [usize; TERMS_ROOM]) -> Cursor
    ensures { ReadsTerms text.now (excludedOf d ∷ []) c terms.old result terms.new }
{
    match c.code {
        40 if d < MAX_NESTING => {
            let r = value_set(text, passed(text, c), d + 1, terms);
            want(text, r, 41)
        }
        40 => failed(c),
        _ => item(text, c, terms),
    }
}

#[cycle(alternative_excluded_value_set)]
fn alternative(text: &[u8], c: Cursor, d: usize, terms: &mut [usize; TERMS_ROOM]) -> Cursor
    ensures { ReadsTerms text.now (alternativeOf d ∷ []) c terms.old result terms.new }
{
    let a = item(text, c, terms);
    if a.code == 33 {
        let r = excluded(text, passed(text, a), d, terms);
        return add_sign(r, 12, a.start, 0, terms);
    }
    a
}

#[cycle(alternative_excluded_value_set)]
pub fn value_set(text: &[u8], from: Cursor, d: usize, terms: &mut [usize; TERMS_ROOM]) -> Cursor
    ensures { ReadsTerms text.now (value_set d ∷ []) from terms.old result terms.new }
{
    let mut c = alternative(text, from, d, terms);
    while c.code == 124 {
        let p = c.start;
        let r = alternative(text, passed(text, c), d, terms);
        c = add_sign(r, 11, p, 0, terms);
    }
    c
}

fn counts_tail(text: &[u8], c: Cursor, terms: &mut [usize; TERMS_ROOM]) -> Cursor
    ensures { ReadsTerms text.now (counts_tail ∷ []) c terms.old result terms.new }
{
    if c.code == 126 {
        return bound(text, passed(text, c), 8, 9, c.start, terms);
    }
    c
}

pub fn counts(text: &[u8], c: Cursor, terms: &mut [usize; TERMS_ROOM]) -> Cursor
    ensures { ReadsTerms text.now (countsOf ∷ []) c terms.old result terms.new }
{
    if c.code == 126 {
        let r = calculation(text, passed(text, c), terms);
        return add_sign(r, 10, c.start, 0, terms);
    }
    let r = calculation(text, c, terms);
    counts_tail(text, r, terms)
}
