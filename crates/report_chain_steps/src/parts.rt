// The parts of a construct, and whether they are on the stack.
ghost use Rattle.std.specs.Prelude.{true, ◌≡◌, List, ◌∷◌, ◌++◌, ℕ, ◌+◌, ◌≤◌, ◌<◌};
ghost use Rattle.basis.specs.Limits.{max_constructs};
ghost use Rattle.table_layout.specs.Constructs.{construct_at};
ghost use Rattle.table_layout.specs.Held.{size_of as size_of};
ghost use Rattle.table_first_follow.specs.Parts.{siblings};
ghost use Rattle.theory.specs.Grammar.{◌∈◌};
ghost use Rattle.report_chain_steps.specs.Replayed.{no_depth, stack};

use crate::NO_DEPTH;
use crate::stack::below_top;
use crate::words::number_at;
use table_first_follow::parts::size_at;

// The number after construct i and all below it.
pub fn end_of(table: &[u32], i: usize) -> usize
    requires { i < max_constructs }
    ensures { (result ≡ i + size_of (construct_at table.now i)) × (result ≤ max_constructs) }
{
    i + size_at(table, i)
}

// Whether b is one of the parts from `start` up to `end`.
pub fn has_part(table: &[u32], start: usize, end: usize, b: usize) -> bool
    requires { end ≤ max_constructs }
    ensures { result ≡ true → (b < end) × ((before : List ℕ) × (siblings table.now start end ≡ before ++ siblings table.now b end)) }
{
    let mut at = start;
    while at < end {
        if at == b {
            return true;
        }
        let size = size_at(table, at);
        if size == 0 {
            return false;
        }
        at += size;
    }
    false
}

// The rows below the parts from `start` up to `end`.
pub fn below_parts(table: &[u32], items: &[usize], depth: usize, start: usize, end: usize) -> usize
    requires { end ≤ max_constructs }
    ensures { result < no_depth → stack table.now items.now depth ≡ siblings table.now start end ++ stack table.now items.now result }
{
    let mut d = depth;
    let mut at = start;
    while at < end {
        d = below_top(items, d, at);
        let size = size_at(table, at);
        if size == 0 {
            return d;
        }
        at += size;
    }
    d
}

// The rows below the topmost, where that is one of the parts from `start` up to `end`.
pub fn below_part(table: &[u32], items: &[usize], depth: usize, start: usize, end: usize) -> usize
    requires { end ≤ max_constructs }
    ensures { result < no_depth → (b : ℕ) × (b ∈ siblings table.now start end) × (stack table.now items.now depth ≡ b ∷ stack table.now items.now result) }
{
    let b = number_at(items, depth);
    if has_part(table, start, end, b) {
        return below_top(items, depth, b);
    }
    NO_DEPTH
}
