// A word of a join. Number n of the join is number n / 2^j of the first set, followed by the last j bits of n, which are number 2^j + n % 2^j of the second.
// So word r is an or of nine pieces, for j from 0 to 8, and a piece is a product of two runs of bits.
ghost use Rattle.std.specs.Prelude.{◌≡◌, ◌+◌, ◌*◌, ◌/◌, ◌%◌, ◌^◌, ◌<◌, ◌≤◌, ◌-◌};
ghost use Rattle.std.specs.Int.Bits.{bit_and, bit_or};
ghost use Rattle.lookahead.specs.Sets.{bit};
ghost use Rattle.lookahead.specs.Inner.{Fields, Run, Product, Piece, Word, JoinedWord};

// The 2^e bits of the numbers from x * 2^e on. They never cross a word.
fn run(set: &[u64; 8], x: usize, e: u32) -> u64
    requires { (e ≤ 6) × (x * 2 ^ e < 512) }
    ensures { Run set.now x e result }
{
    if e == 6 {
        return set[x];
    }
    let first = x << e;
    (set[first / 64] >> (first % 64)) & ((1 << (1u32 << e)) - 1)
}

fn stretch(w: u64, s: u32, mask: u64) -> u64
    requires { s < 64 }
    ensures { result ≡ bit_and (bit_or w (w * 2 ^ s % 2 ^ 64)) mask }
{
    (w | w << s) & mask
}

// The 2^(6 - j) bits of w, 2^j apart: fields are stretched into halves until each is one bit.
fn spread(w: u64, j: u32) -> u64
    requires { (j ≤ 5) × (w < 2 ^ (2 ^ (6 - j))) }
    ensures { Fields (bit w) 1 (2 ^ j) result }
{
    if j == 0 {
        return w;
    }
    if j == 1 {
        let a = stretch(w, 16, 0x0000_ffff_0000_ffff);
        let b = stretch(a, 8, 0x00ff_00ff_00ff_00ff);
        let c = stretch(b, 4, 0x0f0f_0f0f_0f0f_0f0f);
        let d = stretch(c, 2, 0x3333_3333_3333_3333);
        return stretch(d, 1, 0x5555_5555_5555_5555);
    }
    if j == 2 {
        let a = stretch(w, 24, 0x0000_00ff_0000_00ff);
        let b = stretch(a, 12, 0x000f_000f_000f_000f);
        let c = stretch(b, 6, 0x0303_0303_0303_0303);
        return stretch(c, 3, 0x1111_1111_1111_1111);
    }
    if j == 3 {
        let a = stretch(w, 28, 0x0000_000f_0000_000f);
        let b = stretch(a, 14, 0x0003_0003_0003_0003);
        return stretch(b, 7, 0x0101_0101_0101_0101);
    }
    if j == 4 {
        let a = stretch(w, 30, 0x0000_0003_0000_0003);
        return stretch(a, 15, 0x0001_0001_0001_0001);
    }
    stretch(w, 31, 0x0000_0001_0000_0001)
}

// Bit k is bit k / 2^j of a and bit k % 2^j of b: a copy of b for each bit of a, by one multiplication.
fn product(a: u64, b: u64, j: u32) -> u64
    requires { (j ≤ 6) × (a < 2 ^ (2 ^ (6 - j))) × (b < 2 ^ (2 ^ j)) }
    ensures { Product a b j result }
{
    if 5 < j {
        if 0 < a {
            return b;
        }
        return 0;
    }
    spread(a, j) * b
}

// The piece for strings of 6 bits or more, of which the second set has 2^e words.
fn wide(a: &[u64; 8], b: &[u64; 8], r: usize, e: u32) -> u64
    requires { (r < 8) × (e ≤ 2) }
    ensures { Piece a.now b.now r (6 + e) result }
{
    let size = 1usize << e;
    if 0 < run(a, r >> e, 0) {
        return b[size + r % size];
    }
    0
}

fn piece(a: &[u64; 8], b: &[u64; 8], r: usize, j: u32) -> u64
    requires { (r < 8) × (j ≤ 8) }
    ensures { Piece a.now b.now r j result }
{
    if 6 < j {
        return wide(a, b, r, j - 6);
    }
    product(run(a, r, 6 - j), run(b, 1, j), j)
}

fn word(a: &[u64; 8], b: &[u64; 8], r: usize) -> u64
    requires { r < 8 }
    ensures { Word a.now b.now r result }
{
    let mut out = 0;
    for j in 0u32..9 {
        out |= piece(a, b, r, j);
    }
    out
}

// Word r of the join, with the strings of b or, where results have 8 bits, with their prefixes p.
pub fn joined_word(a: &[u64; 8], b: &[u64; 8], p: &[u64; 8], r: usize) -> u64
    requires { r < 8 }
    ensures { JoinedWord a.now b.now p.now r result }
{
    if r < 4 {
        return word(a, b, r);
    }
    word(a, p, r)
}
