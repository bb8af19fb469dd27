// The prefixes of a set's strings. Without its last bit the string with number n has number n / 2, so neighbouring bits fold into one.
ghost use Rattle.std.specs.Prelude.{◌≡◌, ◌/◌, ◌^◌, ◌<◌};
ghost use Rattle.std.specs.Int.Bits.{bit_and, bit_or};
ghost use Rattle.lookahead.specs.Inner.{Folded, FoldedPair, Deepened, FirstWord, Prefixes};

use super::words;

fn squeeze(w: u64, h: u32, mask: u64) -> u64
    requires { h < 64 }
    ensures { result ≡ bit_and (bit_or w (w / 2 ^ h)) mask }
{
    (w | w >> h) & mask
}

// Bit k is set where bit 2k or 2k + 1 of w is: neighbours meet, then fields of 1, 2, 4, 8 and 16 bits close up.
fn fold(w: u64) -> u64
    ensures { Folded w result }
{
    let a = squeeze(w, 1, 0x5555_5555_5555_5555);
    let b = squeeze(a, 1, 0x3333_3333_3333_3333);
    let c = squeeze(b, 2, 0x0f0f_0f0f_0f0f_0f0f);
    let d = squeeze(c, 4, 0x00ff_00ff_00ff_00ff);
    let e = squeeze(d, 8, 0x0000_ffff_0000_ffff);
    squeeze(e, 16, 0x0000_0000_ffff_ffff)
}

// Two words folded into one, and that one added to w.
fn fold_pair(w: u64, low: u64, high: u64) -> u64
    ensures { FoldedPair w low high result }
{
    w | (fold(low) | fold(high) << 32)
}

// The word folded into those of its own bits that the mask has.
fn deepen(w: u64, mask: u64) -> u64
    ensures { Deepened w mask result }
{
    w | (fold(w) & mask)
}

// Word 0, which has the strings of 0 to 5 bits: the strings of word 1 fold into its upper half, that into the half below it, and so on.
fn first_word(w: u64, next: u64) -> u64
    ensures { FirstWord w next result }
{
    let a = fold_pair(w, 0, next);
    let b = deepen(a, 0xffff_0000);
    let c = deepen(b, 0xff00);
    let d = deepen(c, 0xf0);
    let e = deepen(d, 0xc);
    deepen(e, 0x2)
}

pub fn prefixes(b: &[u64; 8]) -> [u64; 8]
    ensures { Prefixes b.now result }
{
    let p3 = fold_pair(b[3], b[6], b[7]);
    let p2 = fold_pair(b[2], b[4], b[5]);
    let p1 = fold_pair(b[1], p2, p3);
    let p0 = first_word(b[0], p1);
    [p0, p1, p2, p3, b[4], b[5], b[6], b[7]]
}
