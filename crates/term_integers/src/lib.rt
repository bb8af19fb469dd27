// Exact whole numbers in i64, each result of at most 2^62 without its sign; `None` where it would pass that.
#![tactic(auto)]

ghost use Rattle.std.specs.Prelude.{◌≡◌, ◌+◌, ◌^◌, ◌≤◌, leb, ℤ, pos, nat_abs, neg_ℤ, ◌+ℤ◌, ◌-ℤ◌, ◌*ℤ◌, not, true};
ghost use Rattle.std.specs.Int.Signed.{non_neg, le_z};
ghost use Rattle.std.specs.Int.{w64};
ghost use Rattle.std.proofs.Common.{SFits};
ghost use Rattle.term_integers.specs.Wholes.{bounded, equals, same_sign};

// 2^62
const LIMIT: u64 = 4611686018427387904;

fn plus(a: i64, b: i64) -> i64
    requires { SFits w64 (a +ℤ b) }
    ensures { result ≡ a +ℤ b }
{
    a + b
}

fn minus(a: i64, b: i64) -> i64
    requires { SFits w64 (a -ℤ b) }
    ensures { result ≡ a -ℤ b }
{
    a - b
}

fn times(a: i64, b: i64) -> i64
    requires { SFits w64 (a *ℤ b) }
    ensures { result ≡ a *ℤ b }
{
    a * b
}

fn opposite(a: i64) -> i64
    requires { SFits w64 (neg_ℤ a) }
    ensures { result ≡ neg_ℤ a }
{
    -a
}

// The number itself, which is not negative.
fn natural(a: i64) -> u64
    requires { non_neg a ≡ true }
    ensures { result ≡ nat_abs a }
{
    a as u64
}

// The number itself, which is in range.
pub fn signed(n: u64) -> i64
    requires { SFits w64 (pos n) }
    ensures { result ≡ pos n }
{
    n as i64
}

pub fn negative(a: i64) -> bool
    ensures { result ≡ not (non_neg a) }
{
    a < 0
}

pub fn at_most(a: i64, b: i64) -> bool
    ensures { result ≡ le_z a b }
{
    a <= b
}

// The number without its sign. The least i64 has no opposite, so one is added first.
pub fn magnitude(a: i64) -> u64
    ensures { result ≡ nat_abs a }
{
    if negative(a) {
        natural(opposite(plus(a, 1))) + 1
    } else {
        natural(a)
    }
}

// Equal as whole numbers.
pub fn equal(a: i64, b: i64) -> bool
    ensures { result ≡ equals a b }
{
    at_most(a, b) && at_most(b, a)
}

// Of one sign, 0 counting with the positive numbers.
fn alike(a: i64, b: i64) -> bool
    ensures { result ≡ same_sign a b }
{
    if negative(a) {
        negative(b)
    } else {
        at_most(0, b)
    }
}

// The number, where it is in bounds.
pub fn in_bounds(a: i64) -> Option<i64>
    ensures { result ≡ bounded a }
{
    if magnitude(a) <= LIMIT { Some(a) } else { None }
}

pub fn whole(n: u64) -> Option<i64>
    ensures { result ≡ bounded (pos n) }
{
    if n <= LIMIT { Some(signed(n)) } else { None }
}

fn small(m: u64, n: u64) -> bool
    ensures { result ≡ leb (m + n) (2 ^ 62) }
{
    m <= LIMIT && n <= LIMIT - m
}

// The sum of two numbers without their signs is in bounds.
fn together(a: i64, b: i64) -> bool
    ensures { result ≡ leb (nat_abs a + nat_abs b) (2 ^ 62) }
{
    small(magnitude(a), magnitude(b))
}

pub fn add(a: i64, b: i64) -> Option<i64>
    ensures { result ≡ bounded (a +ℤ b) }
{
    if alike(a, b) {
        if together(a, b) {
            return Some(plus(a, b));
        }
        return None;
    }
    in_bounds(plus(a, b))
}

pub fn subtract(a: i64, b: i64) -> Option<i64>
    ensures { result ≡ bounded (a -ℤ b) }
{
    if alike(a, b) {
        return in_bounds(minus(a, b));
    }
    if together(a, b) {
        return Some(minus(a, b));
    }
    None
}

pub fn multiply(a: i64, b: i64) -> Option<i64>
    ensures { result ≡ bounded (a *ℤ b) }
{
    let m = magnitude(a);
    if 0 < m {
        if LIMIT / m < magnitude(b) {
            return None;
        }
        return Some(times(a, b));
    }
    Some(0)
}

pub fn negate(a: i64) -> Option<i64>
    ensures { result ≡ bounded (neg_ℤ a) }
{
    if LIMIT < magnitude(a) {
        return None;
    }
    Some(opposite(a))
}

// A power of two.
pub fn power(exponent: u64) -> u64
    requires { exponent ≤ 63 }
    ensures { result ≡ 2 ^ exponent }
{
    1 << exponent
}
