// Whether the value of a pattern of up to 64 bits is in a set. Values past 2^62, which no calculation has, are alike to a set: the next past it stands for
// them all.
ghost use Rattle.std.specs.Prelude.{◌≡◌, true, suc, ◌+◌, ◌-◌, ◌^◌, ◌≤◌, ◌<◌, pos, negsuc};
ghost use Rattle.basis.specs.Bits.{bits_of};
ghost use Rattle.basis.specs.Patterns.{pattern_value, offset};
ghost use Rattle.term_words.specs.Words.{terms};
ghost use Rattle.term_evaluation.specs.Meaning.{membership};
ghost use Rattle.term_evaluation.specs.Patterns.{clamped};

use crate::contains;
use term_integers::{power, signed};
use term_words::TermError;

// -1 less a natural number.
fn negative(n: u64) -> i64
    requires { n < 2 ^ 62 }
    ensures { result ≡ negsuc n }
{
    let m = signed(n);
    -1 - m
}

fn up(n: u64) -> i64
    ensures { result ≡ clamped (pos n) }
{
    if n <= 4611686018427387904 {
        return signed(n);
    }
    4611686018427387905
}

fn down(n: u64) -> i64
    ensures { result ≡ clamped (negsuc n) }
{
    if n < 4611686018427387904 {
        return negative(n);
    }
    -4611686018427387905
}

// 2^(width - 1) of a signed width, else 0.
pub fn offset_of(width: u32, sign: bool) -> u64
    requires { width ≤ 64 }
    ensures { result ≡ offset sign width }
{
    if sign && 0 < width {
        return power((width - 1) as u64);
    }
    0
}

// The value of a pattern, which of 62 bits and fewer is the value itself (`Clamping.clamped_narrow`), or what stands for it.
pub fn value_of(pattern: u64, width: u32, sign: bool) -> i64
    requires { (width ≤ 64) × (pattern < 2 ^ width) }
    ensures { result ≡ clamped (pattern_value sign (bits_of width pattern)) }
{
    let half = offset_of(width, sign);
    if pattern < half {
        return up(pattern);
    }
    if 0 < half {
        return down(half - 1 - (pattern - half));
    }
    up(pattern)
}

// Whether the value of a pattern of a width, signed or not, is in a set.
pub fn contains_pattern(
    words: &[u32],
    start: usize,
    end: usize,
    values: &[i64],
    pattern: u64,
    width: u32,
    sign: bool,
) -> Result<bool, TermError>
    requires { (width ≤ 64) × (pattern < 2 ^ width) }
    ensures { result ≡ membership values.now (pattern_value sign (bits_of width pattern)) start (terms words.now start end) }
{
    let value = value_of(pattern, width, sign);
    contains(words, start, end, values, value)
}
