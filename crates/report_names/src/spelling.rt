// A field's name as a C identifier: its rule's name, and its variable's or its kind with a number, in upper case.
use crate::fields::{Kind, Named, Own};
use report_wording::writing::{number, say};
use std::io::Stdout;
use text_header::Class;
use text_header::spans::span;

// A rule's name and a variable's have at most 32 bytes each.
const MOST_BYTES: usize = 80;

// The name at a place of the text.
fn name_at(grammar: &[u8], at: usize) -> &[u8] {
    grammar
        .get(at..span(Class::Name, grammar, at))
        .unwrap_or(&[])
}

fn kind_name(kind: Kind) -> &'static [u8] {
    match kind {
        Kind::Literal => b"LITERAL_",
        Kind::Range => b"RANGE_",
        Kind::Uint => b"UINT_",
        Kind::Sint => b"SINT_",
    }
}

// The last digit of a number.
fn units(n: usize) -> u8 {
    b'0' + (n % 10) as u8
}

// Digit k of a number below 1,000.
fn digit(n: usize, k: usize) -> Option<u8> {
    match (n, k) {
        (0..=9, 0) | (10..=99, 1) | (100.., 2) => Some(units(n)),
        (10..=99, 0) | (100.., 1) => Some(units(n / 10)),
        (100.., 0) => Some(units(n / 100)),
        _ => None,
    }
}

// Byte k of a word.
fn letter(word: &[u8], k: usize) -> Option<u8> {
    Some(word.get(k)?.to_ascii_uppercase())
}

// Byte k of what is told of a field behind its rule.
fn own(grammar: &[u8], own: Own, k: usize) -> Option<u8> {
    match own {
        Own::Variable(at) => letter(name_at(grammar, at), k),
        Own::Counted(kind, n) => {
            let word = kind_name(kind);
            match word.get(k) {
                Some(b) => Some(*b),
                None => digit(n, k.saturating_sub(word.len())),
            }
        }
    }
}

// Byte k of a field's name.
fn byte(grammar: &[u8], field: Named, k: usize) -> Option<u8> {
    let rule = name_at(grammar, field.rule);
    if k < rule.len() {
        return letter(rule, k);
    }
    if k == rule.len() {
        return Some(b'_');
    }
    own(grammar, field.own, k - rule.len() - 1)
}

// Whether two fields have one name.
pub fn same(grammar: &[u8], a: Named, b: Named) -> bool {
    (0..MOST_BYTES).all(|k| byte(grammar, a, k) == byte(grammar, b, k))
}

// The name at a place of the text, in upper case.
pub fn word(out: Stdout, grammar: &[u8], at: usize) {
    for b in name_at(grammar, at) {
        say(out, &[b.to_ascii_uppercase()]);
    }
}

pub fn name(out: Stdout, grammar: &[u8], field: Named) {
    word(out, grammar, field.rule);
    say(out, b"_");
    match field.own {
        Own::Variable(at) => word(out, grammar, at),
        Own::Counted(kind, n) => number(out, kind_name(kind), n),
    }
}
