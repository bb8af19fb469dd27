// Where a list ends: at the field that takes the eighth bit, at the frame's end, or after the last construct.
ghost use Rattle.std.specs.Prelude.{true, ◌≡◌, List, [], ◌∷◌, ℕ, ◌+◌, ◌-◌, ◌≤◌, ◌<◌, length};
ghost use Rattle.basis.specs.Bits.{Bits};
ghost use Rattle.basis.specs.Limits.{max_constructs};
ghost use Rattle.table_layout.specs.Held.{held, opening};
ghost use Rattle.table_first_follow.specs.Rounds.{strings};
ghost use Rattle.table_first_follow.specs.Sets.{FirstSets, FollowSets, family_words};
ghost use Rattle.theory.specs.Derivation.{members, construct};
ghost use Rattle.theory.specs.Lookahead.{First, Follow};
ghost use Rattle.report_chain_meaning.specs.Chains.{takes, leaves, frame_end};
ghost use Rattle.report_chains.specs.Strings.{string, width_of as width_of, Begun};
ghost use Rattle.report_chain_steps.specs.Replayed.{no_depth, row as row_of, stack, rest_of as rest_of, Tail, IsField, FirstOf, FollowOf, BeginsWith};

use report_chain_steps::Place;
use report_chain_steps::constructs::body_of;
use report_chain_steps::fields::{failed, is_field};
use report_chain_steps::stack::put;
use report_chain_steps::words::number_at;
use report_chains::strings::{bits, some_begins};
use table_first_follow::parts::set_of;

// Whether set i of a family has a string.
fn has_some(family: &[u64], i: usize) -> bool
    requires { length family.now ≡ family_words }
    ensures { result ≡ true → (x : Bits) × strings family.now i x }
{
    some_begins(set_of(family, i), 1)
}

// Whether what a row stands for has a FIRST string.
fn row_ready(first: &[u64], v: usize) -> bool
    requires { length first.now ≡ family_words }
    ensures { result ≡ true → (ws : List ℕ) → FirstSets ws first.now → FirstOf ws (row_of ws v) }
{
    if v < 256 {
        return has_some(first, v);
    }
    if v < 512 {
        return false;
    }
    if v < 768 {
        return has_some(first, v - 511);
    }
    false
}

// Whether all rows have.
fn ready(first: &[u64], items: &[usize], depth: usize) -> bool
    requires { (length first.now ≡ family_words) × (depth ≤ no_depth) }
    ensures { result ≡ true → (ws : List ℕ) → FirstSets ws first.now → FirstOf ws (stack ws items.now depth) }
{
    for d in 0..depth {
        if !row_ready(first, number_at(items, d + 1)) {
            return false;
        }
    }
    true
}

// Whether construct i is a field that can begin with these bits.
fn can_begin(table: &[u32], first: &[u64], i: usize, v: usize) -> bool
    requires { (length first.now ≡ family_words) × FirstSets table.now first.now }
    ensures { result ≡ true → (i < max_constructs) × (1 < v) × (v < 512) × BeginsWith table.now i (string v) }
{
    if i < 256 && 1 < v && v < 512 && is_field(table, i) {
        return some_begins(set_of(first, i), v);
    }
    false
}

// What is left where the eighth bit is spelt can be read to the frame's end.
fn goes_on(first: &[u64], follow: &[u64], items: &[usize], depth: usize, j: usize) -> bool
    requires { (length first.now ≡ family_words) × (length follow.now ≡ family_words) }
    ensures { result ≡ true → (ws : List ℕ) → FirstSets ws first.now → FollowSets ws follow.now → FirstOf ws (stack ws items.now depth) × FollowOf ws j }
{
    if j < 256 && depth <= 1024 && ready(first, items, depth) {
        return has_some(follow, j);
    }
    false
}

// At field i, whose bits v are the last of the window. Row 0 is 256 + the construct after which what is left of the frame comes.
pub fn at_field(
    table: &[u32],
    first: &[u64],
    follow: &[u64],
    items: &mut [usize],
    depth: usize,
    i: usize,
    v: usize,
) -> Place
    requires { (length first.now ≡ family_words) × (length follow.now ≡ family_words) × FirstSets table.now first.now × FollowSets table.now follow.now }
    ensures { result.depth < no_depth → Tail table.now items.new result (takes i (string v) ∷ []) }
{
    let bottom = number_at(items, 0);
    if bottom < 256 {
        return failed();
    }
    if depth == 0 {
        return failed();
    }
    if goes_on(first, follow, items, depth - 1, bottom - 256) && can_begin(table, first, i, v) {
        return Place {
            depth: put(items, depth - 1, i),
            rest: bottom - 255,
            left: bits(v),
            seen: v,
        };
    }
    failed()
}

// At the frame's end, after a window of less than 8 bits.
pub fn at_end(table: &[u32], window: usize) -> Place
    ensures { result.depth < no_depth → (items : List ℕ) → Tail table.now items result (leaves opening ∷ frame_end ∷ []) }
{
    let body = body_of(table, 0);
    if body < 256 && window < 256 {
        return Place {
            depth: 0,
            rest: body + 1,
            left: 8 - bits(window),
            seen: 1,
        };
    }
    failed()
}

// After a construct that takes nothing.
pub fn at_nothing() -> Place
    ensures { (ws items : List ℕ) → Tail ws items result [] }
{
    Place {
        depth: 0,
        rest: 0,
        left: 8,
        seen: 1,
    }
}
