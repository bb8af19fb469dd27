// A value of each field, and how few bits each construct can take.
use report_measures::counts::{counts_of, term_words};
use report_measures::structure::{body_of, next, parts_of};
use report_measures::words::{number_at, put_number};
use table_layout::{Construct, Passes, construct_at};

// More bits than any example has.
pub const NEVER: usize = 100000;

fn holds(words: &[u32], start: usize, end: usize, v: i64) -> bool {
    let none = [0i64; 1];
    matches!(
        term_evaluation::contains(words, start, end, &none[0..0], v),
        Ok(true)
    )
}

// Values of a field of some bits that are tried.
fn values_of(width: usize) -> u32 {
    match width {
        0 => 1,
        1 => 2,
        2 => 4,
        3 => 8,
        4 => 16,
        5 => 32,
        6 => 64,
        7 => 128,
        8 => 256,
        9 => 512,
        10 => 1024,
        11 => 2048,
        _ => 4096,
    }
}

fn least_in(words: &[u32], start: usize, end: usize, limit: u32) -> Option<i64> {
    for n in 0..limit {
        let value = n as i64;
        if holds(words, start, end, value) {
            return Some(value);
        }
    }
    None
}

// The value below 0 that is next to it.
fn greatest_below(words: &[u32], start: usize, end: usize, limit: u32) -> Option<i64> {
    for n in 0..limit {
        let value = -1 - n as i64;
        if holds(words, start, end, value) {
            return Some(value);
        }
    }
    None
}

// Of a signed field half of the patterns are values below 0.
fn with_sign(words: &[u32], start: usize, end: usize, limit: u32) -> Option<i64> {
    match least_in(words, start, end, limit) {
        Some(value) => Some(value),
        None => greatest_below(words, start, end, limit),
    }
}

fn in_set(table: &[u32], signed: bool, width: usize, start: usize, end: usize) -> Option<i64> {
    let words = term_words(table);
    if term_evaluation::variables::has_variable(words, start, end) {
        return None;
    }
    if signed {
        return with_sign(words, start, end, values_of(width.saturating_sub(1)));
    }
    least_in(words, start, end, values_of(width))
}

fn value_of(table: &[u32], i: usize) -> Option<i64> {
    match construct_at(table, i) {
        Construct::Range { low, high } if low <= high => i64::try_from(low).ok(),
        Construct::Uint {
            signed,
            width,
            start,
            end,
            ..
        } => in_set(table, signed, width, start, end),
        _ => None,
    }
}

pub fn values(table: &[u32], out: &mut [Option<i64>; 256]) {
    for i in 0..256 {
        out[i] = value_of(table, i);
    }
}

// The value of field i.
pub fn value_at(values: &[Option<i64>; 256], i: usize) -> Option<i64> {
    if i < 256 { values[i] } else { None }
}

fn sum(a: usize, b: usize) -> usize {
    if a < 10000 && b < 10000 {
        return a + b;
    }
    NEVER
}

fn members(table: &[u32], least: &[usize], i: usize) -> usize {
    parts_of(table, i).fold(0, |bits, part| sum(bits, number_at(least, part)))
}

fn branches(table: &[u32], least: &[usize], i: usize) -> usize {
    parts_of(table, i).fold(NEVER, |bits, part| number_at(least, part).min(bits))
}

// The least number of passes, where it is below 8 and can be said.
pub fn low(table: &[u32], passes: Passes) -> Option<usize> {
    let counts = counts_of(table, passes)?;
    if counts.low <= counts.high && counts.low < 8 {
        return Some(counts.low);
    }
    None
}

fn times(bits: usize, passes: Option<usize>) -> usize {
    match passes {
        Some(0) => 0,
        Some(n) if bits < 10000 => bits.saturating_mul(n),
        _ => NEVER,
    }
}

fn fixed(value: Option<i64>, bits: usize) -> usize {
    if value.is_some() { bits } else { NEVER }
}

fn bytes(length: usize) -> usize {
    if length <= 32 { 8 * length } else { NEVER }
}

fn bits_of(table: &[u32], values: &[Option<i64>; 256], least: &[usize], i: usize) -> usize {
    match construct_at(table, i) {
        Construct::Alternative { .. } => branches(table, least, i),
        Construct::Concatenation { .. } => members(table, least, i),
        Construct::Repetition { passes, .. } => {
            times(number_at(least, next(i)), low(table, passes))
        }
        Construct::Use { rule } => number_at(least, body_of(table, rule)),
        Construct::Literal { length } => bytes(length),
        Construct::Range { .. } => fixed(value_at(values, i), 8),
        Construct::Uint { width, .. } => fixed(value_at(values, i), width),
        _ => NEVER,
    }
}

// From the last construct down. Whether a number changed.
fn round(table: &[u32], values: &[Option<i64>; 256], least: &mut [usize]) -> bool {
    let mut changed = false;
    for i in (0..256).rev() {
        let bits = bits_of(table, values, least, i);
        changed |= bits != number_at(least, i);
        put_number(least, i, bits);
    }
    changed
}

// Rules lead to each other at most 64 deep; after a round without a change all rounds are the same.
pub fn least(table: &[u32], values: &[Option<i64>; 256], least: &mut [usize]) {
    for _n in 0..65 {
        if !round(table, values, least) {
            return;
        }
    }
}

// The branch of construct i with the fewest bits.
pub fn shortest(table: &[u32], least: &[usize], i: usize) -> usize {
    parts_of(table, i).fold(next(i), |best, part| shorter(least, best, part))
}

fn shorter(least: &[usize], a: usize, b: usize) -> usize {
    if number_at(least, b) < number_at(least, a) {
        b
    } else {
        a
    }
}
