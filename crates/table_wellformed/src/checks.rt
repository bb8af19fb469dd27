// Tests of many words at once, and words by their place.
ghost use Rattle.std.specs.Prelude.{◌≡◌, ◌+◌, ◌*◌, ◌-◌, ◌<◌, ◌≤◌};
ghost use Rattle.basis.specs.Limits.{max_constructs};
ghost use Rattle.table_layout.specs.Places.{rule_word, variable_word, construct_word};
ghost use Rattle.table_layout.specs.Held.{size_of};
ghost use Rattle.table_wellformed.specs.Checks.{limited as limitedOf, all_zero, size_at};

use table_layout::{CONSTRUCTS_AT, Construct, RULES_AT, VARIABLES_AT, construct_at, word};

pub fn limited(low: usize, n: usize, high: usize) -> bool
    ensures { result ≡ limitedOf low n high }
{
    low <= n && n <= high
}

// Whether the words from `start` up to `end` are 0.
pub fn zeros(table: &[u32], start: usize, end: usize) -> bool
    ensures { result ≡ all_zero table.now start end }
{
    for k in start..end {
        if word(table, k) != 0 {
            return false;
        }
    }
    true
}

pub fn rule_word(table: &[u32], r: usize, k: usize) -> usize
    requires { (r ≤ 4294967296) × (k < 4) }
    ensures { (result ≡ rule_word table.now r k) × (result < 4294967296) }
{
    word(table, RULES_AT + 4 * r + k)
}

pub fn variable_word(table: &[u32], x: usize, k: usize) -> usize
    requires { (x ≤ 8589934592) × (k < 4) }
    ensures { (result ≡ variable_word table.now x k) × (result < 4294967296) }
{
    word(table, VARIABLES_AT + 4 * x + k)
}

pub fn construct_word(table: &[u32], i: usize, k: usize) -> usize
    requires { (i ≤ 4294967296) × (k < 8) }
    ensures { (result ≡ construct_word table.now i k) × (result < 4294967296) }
{
    word(table, CONSTRUCTS_AT + 8 * i + k)
}

// How many constructs construct i is; none leaves the limit.
pub fn size_at(table: &[u32], i: usize) -> usize
    ensures { (result ≡ size_at table.now i) × (result ≤ max_constructs - i) }
{
    table_layout::size_of(construct_at(table, i))
}
