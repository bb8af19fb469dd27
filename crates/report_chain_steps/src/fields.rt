// A field with its bits.
ghost use Rattle.std.specs.Prelude.{true, ◌≡◌, List, [], ◌∷◌, ℕ, ◌+◌, ◌-◌, ◌*◌, ◌^◌, ◌≤◌, ◌<◌, length};
ghost use Rattle.basis.specs.Bits.{Bits};
ghost use Rattle.basis.specs.Limits.{max_constructs};
ghost use Rattle.basis.specs.Lookahead.{number};
ghost use Rattle.table_layout.specs.Held.{held};
ghost use Rattle.table_first_follow.specs.Rounds.{strings};
ghost use Rattle.table_first_follow.specs.Sets.{FirstSets, family_words};
ghost use Rattle.report_chain_meaning.specs.Chains.{takes};
ghost use Rattle.report_chains.specs.Strings.{string, width_of as width_of};
ghost use Rattle.report_chain_steps.specs.Replayed.{IsField, Read};

use crate::stack::put;
use crate::{NO_DEPTH, Place};
use report_chains::strings::bits;
use table_first_follow::parts::set_of;
use table_layout::{Construct, construct_at};

pub fn is_field(table: &[u32], i: usize) -> bool
    requires { i < max_constructs }
    ensures { result ≡ true → IsField ((held table.now).node i) }
{
    match construct_at(table, i) {
        Construct::Literal { .. } => true,
        Construct::Range { .. } => true,
        Construct::Uint { .. } => true,
        _ => false,
    }
}

// Whether construct i is a field of less than 8 bits that can be these.
fn has_bits(table: &[u32], first: &[u64], i: usize, v: usize) -> bool
    requires { (i < max_constructs) × (length first.now ≡ family_words) }
    ensures { result ≡ true → IsField ((held table.now).node i) × (v < 256) × ((s : Bits) × (number s ≡ v) × strings first.now i s) }
{
    if v < 256 && is_field(table, i) {
        return lookahead::contains(set_of(first, i), v);
    }
    false
}

// 2 to the number of a string's bits.
fn power(n: usize) -> usize
    requires { n < 512 }
    ensures { (result ≡ 2 ^ width_of n) × (result ≤ 256) }
{
    1 << bits(n)
}

// The number of one string before another.
fn appended(a: usize, b: usize) -> usize
    requires { (0 < a) × (a < 256) × (b < 512) }
    ensures { result ≡ (a - 1) * 2 ^ width_of b + b }
{
    (a - 1) * power(b) + b
}

pub fn failed() -> Place
    ensures { result.depth ≡ 1024 }
{
    Place {
        depth: NO_DEPTH,
        rest: 0,
        left: 0,
        seen: 0,
    }
}

// Field i, all of whose bits are v.
pub fn field(
    table: &[u32],
    first: &[u64],
    items: &mut [usize],
    at: Place,
    i: usize,
    v: usize,
) -> Place
    requires { (length first.now ≡ family_words) × FirstSets table.now first.now }
    ensures { Read table.now items.old items.new at result (takes i (string v) ∷ []) }
{
    let left = at.left;
    let seen = at.seen;
    if i < 256 && left <= 8 && seen < 512 && has_bits(table, first, i, v) && 0 < v {
        return Place {
            depth: put(items, at.depth, i),
            rest: at.rest,
            left: left + bits(v),
            seen: appended(v, seen),
        };
    }
    failed()
}
