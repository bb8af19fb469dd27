// The values of a sint that begin with some bits.
use report_wording::writing::{number, say};
use std::io::Stdout;

// A number below the largest half stays a number when it is doubled.
fn twice(n: usize) -> usize {
    n.checked_mul(2).unwrap_or(n)
}

// n times 2 to so many bits.
fn shifted(n: usize, bits: usize) -> usize {
    let mut out = n;
    for _k in 0..bits {
        out = twice(out);
    }
    out
}

// From `low` to `high` places away from 0, or that place alone.
fn between(out: Stdout, low: usize, high: usize, sign: &[u8]) {
    say(out, sign);
    number(out, b"", low);
    if low != high {
        say(out, b" to ");
        say(out, sign);
        number(out, b"", high);
    }
}

// Values from 0 up that begin with the number n, `hidden` bits being left.
fn up(out: Stdout, n: usize, hidden: usize) {
    between(
        out,
        shifted(n, hidden),
        shifted(n.saturating_add(1), hidden).saturating_sub(1),
        b"",
    );
}

// Values below 0: n is how much the bits that are seen lack to the number after all of them.
fn down(out: Stdout, n: usize, hidden: usize) {
    between(
        out,
        shifted(n, hidden),
        shifted(n.saturating_sub(1), hidden).saturating_add(1),
        b"-",
    );
}

// Of a window, a 1 followed by its bits: the values of so many bits that begin with them.
pub fn told(out: Stdout, window: usize, seen: usize, width: usize) {
    let all = shifted(1, seen);
    let first = window.saturating_sub(all);
    let hidden = width.saturating_sub(seen);
    if 0 < hidden {
        say(out, b", as do values from ");
    } else {
        say(out, b", the value ");
    }
    if all <= twice(first) {
        down(out, all.saturating_sub(first), hidden);
    } else {
        up(out, first, hidden);
    }
}
