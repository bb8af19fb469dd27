// Weights of a table's constructs, up to one past the limit.
#![tactic(auto)]

ghost use Rattle.std.specs.Prelude.{◌≡◌, ℕ, ◌+◌, ◌<◌, ◌≤◌, false, ◌∷◌, length, get_or};
ghost use Rattle.basis.specs.Limits.{max_rules, max_constructs, max_weight};
ghost use Rattle.table_layout.specs.Held.{parts};
ghost use Rattle.table_reach.specs.Reaching.{body_of};
ghost use Rattle.table_weights.specs.Sweeps.{capped, joined, weighed, gathered, swept, settled};
ghost use Rattle.table_weights.specs.Weighed.{Weights, Weight};

use basis::{MAX_CONSTRUCTS, MAX_RULES, MAX_WEIGHT};
use table_layout::{Below, RULES_AT, attributes_of, construct_at, word};
use table_reach::at_most;

// Stands for every weight over the limit.
const CAP: usize = MAX_WEIGHT + 1;

// The part after part j, or the end.
fn next_part(table: &[u32], j: usize, end: usize) -> usize
    requires { j < end }
    ensures { (j < result) × (result ≤ end) × ((n : ℕ) → parts (n + 1) table.now j end ≡ j ∷ parts n table.now result end) }
{
    let size = table_layout::size_of(construct_at(table, j));
    if size == 0 {
        return end;
    }
    if end - j <= size {
        return end;
    }
    j + size
}

fn one_more(n: usize) -> usize
    requires { n < 9000000000 }
    ensures { result ≡ capped (1 + n) }
{
    at_most(CAP, n + 1)
}

// Two weights, added or the larger.
fn combined(adds: bool, a: usize, b: usize) -> usize
    requires { (a ≤ (max_weight + 1)) × (b < 4294967296) }
    ensures { result ≡ capped (joined adds a b) }
{
    if adds {
        return at_most(CAP, a + b);
    }
    if a < b {
        return at_most(CAP, b);
    }
    a
}

// The weights of the parts from number `first` up to `end`.
fn gather(table: &[u32], weights: &[u32], adds: bool, first: usize, end: usize) -> usize
    ensures { ((n : ℕ) → end ≤ first + n → result ≡ capped (gathered adds (λ j. get_or weights.now j 0) (parts n table.now first end))) × (result ≤ (max_weight + 1)) }
{
    let mut sum = 0;
    let mut j = first;
    while j < end {
        sum = combined(adds, sum, word(weights, j));
        j = next_part(table, j, end);
    }
    sum
}

fn body_weight(table: &[u32], weights: &[u32], rule: usize) -> usize
    requires { rule < max_rules }
    ensures { (result ≡ get_or weights.now (body_of table.now rule) 0) × (result < 4294967296) }
{
    word(weights, word(table, RULES_AT + 4 * rule))
}

fn weigh_at(table: &[u32], weights: &[u32], i: usize) -> usize
    requires { i < max_constructs }
    ensures { result ≡ weighed table.now weights.now i }
{
    let attributes = attributes_of(construct_at(table, i));
    let end = i + attributes.size;
    let rule = attributes.rule;
    let below = attributes.below;
    match below {
        Below::Nothing => 1,
        Below::Branches => one_more(gather(table, weights, false, i + 1, end)),
        Below::Members => one_more(gather(table, weights, true, i + 1, end)),
        Below::Body { passes: _ } => one_more(2 * word(weights, i + 1)),
        Below::Cases => one_more(gather(table, weights, false, i + 1, end)),
        Below::Rule => one_more(body_weight(table, weights, rule)),
    }
}

// One sweep, from construct n − 1 to the first: whether it changed a weight.
fn sweep(table: &[u32], weights: &mut [u32], n: usize) -> bool
    requires { (n ≤ max_constructs) × (length weights.old ≡ max_constructs) }
    ensures { (weights.new ≡ swept table.now n weights.old) × (result ≡ false → weights.new ≡ weights.old) }
{
    let mut changed = false;
    for i in (0..n).rev() {
        let weight = weigh_at(table, weights, i);
        if word(weights, i) != weight {
            weights[i] = weight as u32;
            changed = true;
        }
    }
    changed
}

// Sweeps, at most `rounds`, until one changes nothing.
fn settle(table: &[u32], weights: &mut [u32], n: usize, rounds: usize)
    requires { (n ≤ max_constructs) × (length weights.old ≡ max_constructs) }
    ensures { weights.new ≡ settled table.now n rounds weights.old }
{
    let mut k = rounds;
    while 0 < k {
        let changed = sweep(table, weights, n);
        if changed {
            k -= 1;
        } else {
            k = 0;
        }
    }
}

// The weights of the constructs, and the grammar's.
#[derive(Clone, Copy)]
pub struct Weighing {
    pub constructs: [u32; MAX_CONSTRUCTS],
    pub grammar: usize,
}

// One sweep more than there are rules is enough: one settles what leads to no rule, each further one what leads to one rule more.
pub fn weigh(table: &[u32]) -> Weighing
    ensures { Weights table.now result.constructs × Weight table.now result.grammar }
{
    let mut constructs = [1u32; MAX_CONSTRUCTS];
    settle(
        table,
        &mut constructs,
        at_most(MAX_CONSTRUCTS, word(table, 2)),
        at_most(MAX_RULES, word(table, 1)) + 1,
    );
    let grammar = one_more(body_weight(table, &constructs, 0));
    Weighing {
        constructs,
        grammar,
    }
}
