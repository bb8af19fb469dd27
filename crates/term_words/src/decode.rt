// Terms in words.
ghost use Rattle.std.specs.Prelude.{◌≡◌, ◌+◌, ◌*◌};
ghost use Rattle.term_words.specs.Words.{operation_of, sign_of, term_of, term_at};

use crate::{Comparison, Operation, Term};

pub fn wide(low: u32, high: u32) -> u64
    ensures { result ≡ low + 4294967296 * high }
{
    (low as u64) + 4294967296 * (high as u64)
}

fn operation(tag: u32, low: u32, high: u32) -> Operation
    ensures { result ≡ operation_of tag low high }
{
    match tag {
        1 => Operation::Number(wide(low, high)),
        2 => Operation::Variable(low as usize),
        3 => Operation::Add,
        4 => Operation::Subtract,
        5 => Operation::Multiply,
        6 => Operation::Negate,
        _ => Operation::Unknown,
    }
}

fn sign(tag: u32) -> Term
    ensures { result ≡ sign_of tag }
{
    match tag {
        7 => Term::All,
        8 => Term::Range,
        9 => Term::From,
        10 => Term::UpTo,
        11 => Term::Or,
        12 => Term::Except,
        13 => Term::And,
        14 => Term::Compare(Comparison::Equal),
        15 => Term::Compare(Comparison::Unequal),
        16 => Term::Compare(Comparison::Less),
        17 => Term::Compare(Comparison::AtMost),
        18 => Term::Compare(Comparison::Greater),
        19 => Term::Compare(Comparison::AtLeast),
        _ => Term::Bad,
    }
}

fn term(tag: u32, low: u32, high: u32) -> Term
    ensures { result ≡ term_of tag low high }
{
    if tag < 7 {
        return Term::Part(operation(tag, low, high));
    }
    if tag < 32 {
        return sign(tag);
    }
    Term::Single(operation(tag - 32, low, high))
}

// The term of a number, `Bad` past the words' end.
pub fn term_at(words: &[u32], at: usize) -> Term
    ensures { result ≡ term_at words.now at }
{
    if at < words.len() / 3 {
        let base = at * 3;
        return term(words[base], words[base + 1], words[base + 2]);
    }
    Term::Bad
}
