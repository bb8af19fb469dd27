// A frame's bits, most significant first, read by whole bytes.
#![tactic(auto)]

ghost use Rattle.std.specs.Prelude.{◌≡◌, ℕ, ◌+◌, ◌*◌, ◌≤◌, ◌<◌, ◌^◌, length, take, drop};
ghost use Rattle.basis.specs.Limits.{max_frame_bytes};
ghost use Rattle.basis.specs.Bits.{value, frame_bits};
ghost use Rattle.basis.specs.Lookahead.{lookahead, number};
ghost use Rattle.basis.proofs.Frames.{bytes_value};

use term_integers::power;

fn wide(x: u8) -> u64
    ensures { (result ≡ x) × (result < 256) }
{
    x as u64
}

// n bytes from byte q on, as one number.
fn bytes(frame: &[u8], q: usize, n: usize) -> u64
    requires { (q + n ≤ length frame.now) × (n ≤ 5) }
    ensures { (result ≡ bytes_value frame.now q n) × (result < 2 ^ (8 * n)) }
{
    let mut sum: u64 = 0;
    for i in 0..n {
        sum = sum * 256 + wide(frame[q + i]);
    }
    sum
}

// w bits from bit p on, at most 32, as a number: they lie in 5 bytes.
fn few_bits(frame: &[u8], p: usize, w: usize) -> u64
    requires { (p + w ≤ 8 * length frame.now) × (w ≤ 32) × (length frame.now ≤ max_frame_bytes) }
    ensures { (result ≡ value (take w (drop p (frame_bits frame.now)))) × (result < 2 ^ w) }
{
    let q = p / 8;
    let r = p % 8;
    let n = (r + w + 7) / 8;
    let y = bytes(frame, q, n);
    let below = 8 * n - r;
    (y % power(below as u64)) / power((below - w) as u64)
}

// The same of at most 64 bits: more than 32 are read in two parts.
fn bits_by_parts(frame: &[u8], p: usize, w: usize) -> u64
    requires { (p + w ≤ 8 * length frame.now) × (w ≤ 64) × (length frame.now ≤ max_frame_bytes) }
    ensures { (result ≡ value (take w (drop p (frame_bits frame.now)))) × (result < 2 ^ w) }
{
    if w <= 32 {
        return few_bits(frame, p, w);
    }
    let above = few_bits(frame, p, w - 32);
    let below = few_bits(frame, p + (w - 32), 32);
    above * 4294967296 + below
}

// Eight bytes as one number. A sum of pairs is compiled to one load; a chain of products with 256 is not.
fn joined(a: u64, b: u64, c: u64, d: u64, e: u64, f: u64, g: u64, h: u64) -> u64
    requires { (a < 256) × (b < 256) × (c < 256) × (d < 256) × (e < 256) × (f < 256) × (g < 256) × (h < 256) }
    ensures { result ≡ ((((((a * 256 + b) * 256 + c) * 256 + d) * 256 + e) * 256 + f) * 256 + g) * 256 + h }
{
    ((a * 72057594037927936 + b * 281474976710656) + (c * 1099511627776 + d * 4294967296))
        + ((e * 16777216 + f * 65536) + (g * 256 + h))
}

// The eight bytes from byte q on, as one number.
fn eight(frame: &[u8], q: usize) -> u64
    requires { (q + 8 ≤ length frame.now) × (length frame.now ≤ max_frame_bytes) }
    ensures { result ≡ bytes_value frame.now q 8 }
{
    joined(
        wide(frame[q]),
        wide(frame[q + 1]),
        wide(frame[q + 2]),
        wide(frame[q + 3]),
        wide(frame[q + 4]),
        wide(frame[q + 5]),
        wide(frame[q + 6]),
        wide(frame[q + 7]),
    )
}

// w bits from bit p on, at most 64, as a number: in one word where eight bytes have them all.
pub fn bits(frame: &[u8], p: usize, w: usize) -> u64
    requires { (p + w ≤ 8 * length frame.now) × (w ≤ 64) × (length frame.now ≤ max_frame_bytes) }
    ensures { (result ≡ value (take w (drop p (frame_bits frame.now)))) × (result < 2 ^ w) }
{
    let q = p / 8;
    let r = p % 8;
    if 0 < w && r + w <= 64 && q + 8 <= frame.len() {
        return (eight(frame, q) << r) >> (64 - w);
    }
    bits_by_parts(frame, p, w)
}

// The 8 bits from bit p on, as a number: a byte, or parts of two.
pub fn octet(frame: &[u8], p: usize) -> u64
    requires { (p + 8 ≤ 8 * length frame.now) × (length frame.now ≤ max_frame_bytes) }
    ensures { (result ≡ value (take 8 (drop p (frame_bits frame.now)))) × (result < 2 ^ 8) }
{
    let q = p / 8;
    let r = p % 8;
    if r == 0 {
        return wide(frame[q]);
    }
    let both = wide(frame[q]) * 256 + wide(frame[q + 1]);
    (both >> (8 - r)) % 256
}

// The number of what comes next at bit p (document 01's window).
pub fn ahead(frame: &[u8], p: usize) -> u64
    requires { (p ≤ 8 * length frame.now) × (length frame.now ≤ max_frame_bytes) }
    ensures { result ≡ number (lookahead (drop p (frame_bits frame.now))) }
{
    let left = 8 * frame.len() - p;
    if left < 8 {
        return power(left as u64) + bits_by_parts(frame, p, left);
    }
    256 + octet(frame, p)
}
