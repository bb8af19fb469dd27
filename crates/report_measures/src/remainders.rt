// Sets of remainders by 8, a bit for each.
ghost use Rattle.std.specs.Prelude.{◌<◌};

// The set of one remainder.
pub fn only(r: usize) -> usize
    ensures { result < 256 }
{
    1 << (r % 8)
}

pub fn union(a: usize, b: usize) -> usize {
    a | b
}

// Every remainder of the set, and r more.
fn shifted(set: usize, r: usize) -> usize
    requires { r < 8 }
{
    (set << r | set >> (8 - r)) % 256
}

// Each of one and then each of the other.
pub fn sum(a: usize, b: usize) -> usize {
    let mut out = 0;
    for r in 0..8 {
        if (b >> r) % 2 == 1 {
            out = union(out, shifted(a, r));
        }
    }
    out
}

// From n times on.
pub fn star(set: usize, from: usize) -> usize {
    let mut out = from;
    for _k in 0..8 {
        out = union(out, sum(out, set));
    }
    out
}

// Exactly n times.
pub fn times(set: usize, n: usize) -> usize {
    let mut out = 1;
    for _k in 0..n {
        out = sum(out, set);
    }
    out
}
