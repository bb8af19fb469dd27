// Rules of a table that reach themselves, and rules that the start rule does not reach.
#![tactic(auto)]

ghost use Rattle.std.specs.Prelude.{◌≡◌, min};
ghost use Rattle.table_reach.specs.Reaching.{Found, Covered};

use basis::MAX_RULES;
use table_layout::word;

pub mod reaching;

// Refusal 7, over any words: the first rule that reaches itself.
pub fn recursive_rule(table: &[u32]) -> Option<usize>
    ensures { Found table.now result }
{
    let mut rows = [0u64; MAX_RULES];
    reaching::rows_of(table, &mut rows);
    reaching::first_on_diagonal(&rows)
}

// Refusal 12, over any words: the first rule that the start rule does not reach.
pub fn unreached_rule(table: &[u32]) -> Option<usize>
    ensures { Covered table.now result }
{
    let mut rows = [0u64; MAX_RULES];
    reaching::rows_of(table, &mut rows);
    reaching::first_not_reached(&rows, word(table, 1))
}

// The smaller of two numbers.
pub fn at_most(most: usize, n: usize) -> usize
    ensures { result ≡ min most n }
{
    most.min(n)
}
