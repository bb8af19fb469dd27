// A set in a slice of u32 words, as a table has it: sixteen words from `at` on.
ghost use Rattle.std.specs.Prelude.{◌≡◌, ◌+◌, ◌*◌, ◌/◌, ◌%◌, ◌^◌, ◌≤◌, length};
ghost use Rattle.lookahead.specs.Sets.{Decides};
ghost use Rattle.lookahead_slices.specs.Narrow.{StandsAt, Put};

use lookahead::Set;

// The lower half of a word where k is even, else the upper.
fn half(w: u64, k: usize) -> u32
    ensures { result ≡ w / 2 ^ (32 * (k % 2)) % 2 ^ 32 }
{
    ((w >> (32 * (k % 2))) % 0x1_0000_0000) as u32
}

pub fn put(table: &mut [u32], at: usize, set: Set)
    requires { at + 16 ≤ length table.old }
    ensures { Put table.old table.new at set.words }
{
    let x = set.words;
    for k in 0..16 {
        table[at + k] = half(x[k / 2], k);
    }
}

// Whether the set stands there word for word.
pub fn same(table: &[u32], at: usize, set: Set) -> bool
    requires { at + 16 ≤ length table.now }
    ensures { Decides result (StandsAt table.now at set.words) }
{
    let x = set.words;
    for k in 0..16 {
        if table[at + k] != half(x[k / 2], k) {
            return false;
        }
    }
    true
}
