// Which rules reach which: row r is a word whose bit q says whether rule r reaches rule q.
ghost use Rattle.std.specs.Prelude.{◌≡◌, cond, ℕ, ◌<◌, max, min, eqb, length};
ghost use Rattle.basis.specs.Limits.{max_rules};
ghost use Rattle.lookahead.specs.Sets.{bit};
ghost use Rattle.table_reach.specs.Reaching.{rule_end};
ghost use Rattle.table_reach.specs.Closure.{used_rule, uses_between, uses, closure, Matrix, Mended, Diagonal, from_start, StartRow};

use super::at_most;
use basis::{MAX_CONSTRUCTS, MAX_RULES};
use table_layout::{Construct, RULES_AT, attributes_of, construct_at, word};

// Whether the row has a bit.
fn has(row: u64, q: usize) -> bool
    requires { q < max_rules }
    ensures { result ≡ eqb (bit row q) 1 }
{
    (row >> q) % 2 == 1
}

// The rule that a construct uses; the first number past all rules where it uses none.
fn rule_used(construct: Construct) -> usize
    ensures { result ≡ used_rule construct }
{
    attributes_of(construct).rule
}

// The row with the use of a rule.
fn with_use(row: u64, rule: usize) -> u64
    ensures { (q : ℕ) → q < max_rules → bit result q ≡ max (bit row q) (cond (eqb rule q) 1 0) }
{
    if rule < MAX_RULES {
        return row | (1u64 << rule);
    }
    row
}

fn row_between(table: &[u32], first: usize, end: usize) -> u64
    ensures { (q : ℕ) → q < max_rules → bit result q ≡ uses_between table.now first end q }
{
    let mut row = 0u64;
    for i in first..end {
        row = with_use(row, rule_used(construct_at(table, i)));
    }
    row
}

// Where the constructs of rule r end.
pub fn end_of(table: &[u32], r: usize) -> usize
    requires { r < max_rules }
    ensures { result ≡ rule_end table.now r }
{
    if r + 1 < word(table, 1) {
        return word(table, RULES_AT + 4 * (r + 1));
    }
    word(table, 2)
}

fn row_of(table: &[u32], r: usize) -> u64
    requires { r < max_rules }
    ensures { (q : ℕ) → q < max_rules → bit result q ≡ uses table.now r q }
{
    if word(table, 1) <= r {
        return 0;
    }
    row_between(
        table,
        word(table, RULES_AT + 4 * r),
        at_most(MAX_CONSTRUCTS, end_of(table, r)),
    )
}

// The uses of every rule.
pub fn fill(table: &[u32], rows: &mut [u64; MAX_RULES])
    requires { length rows.old ≡ max_rules }
    ensures { Matrix rows.new (uses table.now) }
{
    for r in 0..MAX_RULES {
        rows[r] = row_of(table, r);
    }
}

// A row that reaches k reaches all that row k, `via`, reaches.
fn mended(row: u64, via: u64, k: usize) -> u64
    requires { k < max_rules }
    ensures { (q : ℕ) → bit result q ≡ max (bit row q) (min (bit row k) (bit via q)) }
{
    if has(row, k) {
        return row | via;
    }
    row
}

fn through(rows: &mut [u64; MAX_RULES], via: u64, k: usize)
    requires { (length rows.old ≡ max_rules) × (k < max_rules) }
    ensures { Mended rows.old rows.new via k max_rules }
{
    for i in 0..MAX_RULES {
        rows[i] = mended(rows[i], via, k);
    }
}

// Warshall's closure, in place.
fn close(rows: &mut [u64; MAX_RULES])
    requires { length rows.old ≡ max_rules }
    ensures { (u : ℕ → ℕ → ℕ) → Matrix rows.old u → Matrix rows.new (closure u max_rules) }
{
    for k in 0..MAX_RULES {
        let via = rows[k];
        through(rows, via, k);
    }
}

// Which rules reach which.
pub fn rows_of(table: &[u32], rows: &mut [u64; MAX_RULES])
    requires { length rows.old ≡ max_rules }
    ensures { Matrix rows.new (closure (uses table.now) max_rules) }
{
    fill(table, rows);
    close(rows);
}

pub fn first_on_diagonal(rows: &[u64; MAX_RULES]) -> Option<usize>
    ensures { Diagonal rows.now result }
{
    for r in 0..MAX_RULES {
        if has(rows[r], r) {
            return Some(r);
        }
    }
    None
}

// Whether a rule is one of 64, and the start rule reaches it.
fn reached(rows: &[u64; MAX_RULES], q: usize) -> bool
    ensures { result ≡ from_start rows.now q }
{
    q < MAX_RULES && has(rows[0], q)
}

// The first of the rules from 1 up to `count` that the start rule does not reach.
pub fn first_not_reached(rows: &[u64; MAX_RULES], count: usize) -> Option<usize>
    ensures { StartRow rows.now count result }
{
    for r in 1..count {
        if !reached(rows, r) {
            return Some(r);
        }
    }
    None
}
