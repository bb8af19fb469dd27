// The strings whose numbers lie in a span: of one length, and of the leading bits of a range of values, strings have such numbers.
ghost use Rattle.std.specs.Prelude.{◌≡◌, ◌-◌, ◌*◌, ◌^◌, ◌≤◌, min, length};
ghost use Rattle.basis.specs.Bits.{Bits};
ghost use Rattle.basis.specs.Lookahead.{number};
ghost use Rattle.lookahead.specs.Sets.{Is};
ghost use Rattle.lookahead.specs.Inner.{Stripe, Filled};

use super::Set;

fn ones(m: usize) -> u64
    requires { m ≤ 64 }
    ensures { result ≡ 2 ^ m - 1 }
{
    if m < 64 {
        return (1u64 << m) - 1;
    }
    0xffff_ffff_ffff_ffff
}

// The word with the bits from l up to h.
fn stripe(l: usize, h: usize) -> u64
    requires { h ≤ 64 }
    ensures { Stripe l h result }
{
    if l < h {
        return ones(h - l) << l;
    }
    0
}

// How many of the numbers below n come in word i.
fn reach(n: usize, i: usize) -> usize
    requires { i ≤ 8 }
    ensures { result ≡ min (n - 64 * i) 64 }
{
    n.saturating_sub(64 * i).min(64)
}

// From low up to below past.
fn between(low: usize, past: usize) -> [u64; 8]
    ensures { Filled (λ i w. Stripe (min (low - 64 * i) 64) (min (past - 64 * i) 64) w) 8 result }
{
    let mut out = [0u64; 8];
    for i in 0..8 {
        out[i] = stripe(reach(low, i), reach(past, i));
    }
    out
}

pub fn span(low: usize, high: usize) -> Set
    ensures { Is result.words (λ (s : Bits). (length s ≤ 8) × (low ≤ number s) × (number s ≤ high)) }
{
    Set {
        words: between(low.max(1), high.min(511) + 1),
    }
}
