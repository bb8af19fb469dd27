// Strings of at most 8 bits by their number, a 1 followed by the bits, and what is left to be spelt.
ghost use Rattle.std.specs.Prelude.{true, ◌≡◌, ◌<◌, ◌≤◌};
ghost use Rattle.report_chains.specs.Strings.{width_of, Begun, SomeBegins};

use lookahead::Set;

// How many bits a string has.
pub fn bits(n: usize) -> usize
    ensures { result ≡ width_of n }
{
    if n < 2 {
        return 0;
    }
    if n < 4 {
        return 1;
    }
    if n < 8 {
        return 2;
    }
    if n < 16 {
        return 3;
    }
    if n < 32 {
        return 4;
    }
    if n < 64 {
        return 5;
    }
    if n < 128 {
        return 6;
    }
    if n < 256 {
        return 7;
    }
    8
}

// 2 to the number of bits.
fn power(n: usize) -> usize
    ensures { (0 < result) × (result ≤ 256) }
{
    match n {
        0 => 1,
        1 => 2,
        2 => 4,
        3 => 8,
        4 => 16,
        5 => 32,
        6 => 64,
        7 => 128,
        _ => 256,
    }
}

// The first bits of a string, as far as it has them.
pub fn head(n: usize, width: usize) -> usize {
    n / power(bits(n).saturating_sub(width))
}

fn plus(a: usize, b: usize) -> usize {
    if a <= 256 && b <= 256 {
        return a + b;
    }
    1
}

// The bits after the first ones.
pub fn tail(n: usize, width: usize) -> usize {
    let p = power(bits(n).saturating_sub(width));
    plus(n % p, p)
}

// Whether one string begins with another.
fn begins(n: usize, with: usize) -> bool
    ensures { result ≡ true → Begun n with }
{
    for k in 0usize..9 {
        if n >> k == with {
            return true;
        }
    }
    false
}

fn begun(set: Set, n: usize, target: usize) -> bool
    ensures { result ≡ true → SomeBegins set.words target }
{
    if begins(n, target) {
        return lookahead::contains(set, n);
    }
    false
}

// Whether a string of the set begins so.
pub fn some_begins(set: Set, target: usize) -> bool
    ensures { result ≡ true → SomeBegins set.words target }
{
    for n in 1..512 {
        if begun(set, n, target) {
            return true;
        }
    }
    false
}

// Whether what has these strings can spell the target: wholly, where the frame ends after it.
pub fn fits(set: Set, target: usize, whole: bool) -> bool {
    if whole {
        return lookahead::contains(set, target);
    }
    some_begins(set, target)
}
