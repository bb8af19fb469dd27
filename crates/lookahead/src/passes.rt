// Passes of a repeated body. From 8 passes on, more passes have the same strings, with or without the empty string in the body.
ghost use Rattle.std.specs.Prelude.{◌≡◌, ◌≤◌, min};
ghost use Rattle.basis.specs.Counts.{between};
ghost use Rattle.basis.specs.Counts.Counts.{from};
ghost use Rattle.lookahead.specs.Sets.{Has, Is, Passes, Repeated};

use super::Set;

fn capped(k: usize) -> usize
    ensures { result ≡ min k 8 }
{
    k.min(8)
}

pub fn exactly(body: Set, k: usize) -> Set
    ensures { Is result.words (Passes (Has body.words) k) }
{
    let n = capped(k);
    let mut out = super::single(1);
    for _i in 0..n {
        out = super::join(body, out);
    }
    out
}

// low to high passes, both at most 8.
fn few(body: Set, low: usize, high: usize) -> Set
    requires { (low ≤ high) × (high ≤ 8) }
    ensures { Is result.words (Repeated (Has body.words) (between low high)) }
{
    let mut last = exactly(body, low);
    let mut out = last;
    for _k in low..high {
        last = super::join(body, last);
        out = super::union(out, last);
    }
    out
}

// `{low~high}`; nothing where high is below low.
pub fn within(body: Set, low: usize, high: usize) -> Set
    ensures { Is result.words (Repeated (Has body.words) (between low high)) }
{
    if low <= high {
        return few(body, capped(low), capped(high));
    }
    super::empty()
}

// `{low~}`.
pub fn at_least(body: Set, low: usize) -> Set
    ensures { Is result.words (Repeated (Has body.words) (from low)) }
{
    few(body, capped(low), 8)
}
