// The parts of a construct.
ghost use Rattle.std.specs.Prelude.{◌≡◌, ◌&&◌, ◌+◌, ◌-◌, ◌<◌, ◌≤◌, ◌*◌, ltb};
ghost use Rattle.basis.specs.Limits.{max_constructs};
ghost use Rattle.table_wellformed.specs.Checks.{size_at};
ghost use Rattle.table_wellformed.specs.Parts.{conditioned as conditionedOf, unconditioned as unconditionedOf, default_at, part_laid, parts_laid};

use crate::checks::{construct_word, size_at};
use table_layout::word;

fn conditioned(table: &[u32], i: usize) -> bool
    requires { i ≤ 4294967296 }
    ensures { result ≡ conditionedOf table.now i }
{
    let start = construct_word(table, i, 6);
    let end = construct_word(table, i, 7);
    start < end && end <= word(table, 4)
}

pub fn unconditioned(table: &[u32], i: usize) -> bool
    requires { i ≤ 4294967296 }
    ensures { result ≡ unconditionedOf table.now i }
{
    construct_word(table, i, 6) == 0 && construct_word(table, i, 7) == 0
}

fn default_case(table: &[u32], first: usize, j: usize, end: usize) -> bool
    requires { j ≤ 2 * max_constructs }
    ensures { result ≡ default_at table.now first j end }
{
    first < j && j + size_at(table, j) == end && unconditioned(table, j)
}

fn part(table: &[u32], switch: bool, first: usize, j: usize, end: usize) -> bool
    requires { j ≤ 2 * max_constructs }
    ensures { result ≡ (ltb 0 (size_at table.now j) && part_laid table.now switch first j end) }
{
    let present = 0 < size_at(table, j);
    if switch {
        return present && (conditioned(table, j) || default_case(table, first, j, end));
    }
    present && unconditioned(table, j)
}

// Whether the parts from `first` on fill what is left up to `end`.
pub fn parts(table: &[u32], switch: bool, first: usize, end: usize) -> bool
    requires { end ≤ 2 * max_constructs }
    ensures { result ≡ parts_laid table.now switch first end }
{
    let mut j = first;
    while j < end {
        if !part(table, switch, first, j, end) {
            return false;
        }
        j += size_at(table, j);
    }
    j == end
}
