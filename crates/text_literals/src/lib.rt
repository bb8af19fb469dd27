// Literals and their characters.
#![tactic(auto)]

ghost use Rattle.std.specs.Prelude.{◌≡◌, ℕ, ◌+◌, ◌*◌, ◌≤◌, ◌<◌, cond, leb, length, get_or, set};
ghost use Rattle.basis.specs.Limits.{max_literal_bytes};
ghost use Rattle.text_literals.specs.Literals.{is_quote, between as betweenOf, escaped as escapedOf, part_after, stops as stopsOf, counted as countedOf, literal_at, is_closed, is_right, characters_at, value_of};

use basis::MAX_LITERAL_BYTES;
use text_header::bytes::{digit_value, printable};

// How far a literal is read.
#[derive(Clone, Copy)]
pub enum Part {
    // the opening quote
    Start,
    // a backslash
    Escape,
    // `\[`
    Bracket,
    // `\[` and digits of this value
    Digits(u8),
    // a whole character
    Character(u8),
    // the closing quote
    Closed,
    Wrong,
}

// Where reading a literal ends, in which part, after how many characters.
#[derive(Clone, Copy)]
pub struct Extent {
    pub part: Part,
    pub count: usize,
    pub end: usize,
}

pub fn quote(b: u8) -> bool
    ensures { result ≡ is_quote b }
{
    b == b'"' || b == b'\''
}

fn between(quote: u8, b: u8) -> Part
    ensures { result ≡ betweenOf quote b }
{
    if b == quote {
        return Part::Closed;
    }
    if b == b'\\' {
        return Part::Escape;
    }
    if printable(b) {
        return Part::Character(b);
    }
    Part::Wrong
}

fn begun(quote: u8, b: u8) -> Part
    ensures { result ≡ part_after Part.Start quote b }
{
    if b == quote {
        return Part::Wrong;
    }
    between(quote, b)
}

fn escaped(b: u8) -> Part
    ensures { result ≡ escapedOf b }
{
    match b {
        b'[' => Part::Bracket,
        b'\\' | b'"' | b'\'' => Part::Character(b),
        _ => Part::Wrong,
    }
}

// After one hexadecimal digit more.
fn widened(n: u8, digit: u8) -> Part
    requires { digit < 16 }
    ensures { result ≡ cond (leb (16 * n + digit) 127) (Part.Digits (16 * n + digit)) Part.Wrong }
{
    let v = 16 * usize::from(n) + usize::from(digit);
    if v <= 127 {
        return Part::Digits(v as u8);
    }
    Part::Wrong
}

fn bracketed(b: u8) -> Part
    ensures { result ≡ part_after Part.Bracket 0 b }
{
    match digit_value(b) {
        Some(digit) => widened(0, digit),
        None => Part::Wrong,
    }
}

fn hexadecimal(n: u8, b: u8) -> Part
    ensures { result ≡ part_after (Part.Digits n) 0 b }
{
    match digit_value(b) {
        Some(digit) => widened(n, digit),
        None if b == b']' => Part::Character(n),
        None => Part::Wrong,
    }
}

// The part after one byte more.
fn after(part: Part, quote: u8, b: u8) -> Part
    ensures { result ≡ part_after part quote b }
{
    match part {
        Part::Start => begun(quote, b),
        Part::Escape => escaped(b),
        Part::Bracket => bracketed(b),
        Part::Digits(n) => hexadecimal(n, b),
        Part::Character(_) => between(quote, b),
        Part::Closed | Part::Wrong => Part::Wrong,
    }
}

fn stops(part: Part) -> bool
    ensures { result ≡ stopsOf part }
{
    matches!(part, Part::Closed | Part::Wrong)
}

fn counted(n: usize, part: Part) -> usize
    requires { n < 18446744073709551615 }
    ensures { (result ≡ countedOf n part) × (result ≤ n + 1) }
{
    match part {
        Part::Character(_) => n + 1,
        _ => n,
    }
}

fn closed(part: Part) -> bool
    ensures { result ≡ is_closed part }
{
    matches!(part, Part::Closed)
}

// How far the literal whose opening quote stands at `at` goes.
pub fn reach(text: &[u8], at: usize) -> Extent
    requires { at < length text.now }
    ensures { result ≡ literal_at text.now at }
{
    let quote = text[at];
    let mut part = Part::Start;
    let mut count = 0;
    for i in at + 1..text.len() {
        let next = after(part, quote, text[i]);
        if stops(next) {
            return Extent {
                part: next,
                count,
                end: i + 1,
            };
        }
        count = counted(count, next);
        part = next;
    }
    Extent {
        part,
        count,
        end: text.len(),
    }
}

pub fn right(r: Extent) -> bool
    ensures { result ≡ is_right r }
{
    closed(r.part) && r.count <= MAX_LITERAL_BYTES
}

// How many characters the literal at `at` has.
pub fn count_at(text: &[u8], at: usize) -> usize
    requires { at < length text.now }
    ensures { result ≡ length (characters_at text.now at) }
{
    reach(text, at).count
}

fn value(part: Part) -> u8
    ensures { result ≡ value_of part }
{
    match part {
        Part::Character(c) => c,
        _ => 0,
    }
}

fn keep(bytes: &mut [u8], n: usize, b: u8)
    ensures { bytes.new ≡ set bytes.old n b }
{
    if n < bytes.len() {
        bytes[n] = b;
    }
}

// The first 32 characters of the literal at `at`, over zeros. What is no character is kept as 0, where the next one goes.
pub fn spell(text: &[u8], at: usize, bytes: &mut [u8])
    requires { (at < length text.now) × (length bytes.old ≡ max_literal_bytes) × ((k : ℕ) → get_or bytes.old k 0 ≡ 0) }
    ensures { (k : ℕ) → k < max_literal_bytes → get_or bytes.new k 0 ≡ get_or (characters_at text.now at) k 0 }
{
    let quote = text[at];
    let mut part = Part::Start;
    let mut n = 0;
    for i in at + 1..text.len() {
        part = after(part, quote, text[i]);
        if stops(part) {
            return;
        }
        keep(bytes, n, value(part));
        n = counted(n, part);
    }
}
