// What follows a construct, by what follows its owner. The answer is 1 + the construct that is followed now, or 0.
ghost use Rattle.std.specs.Prelude.{true, ◌≡◌, List, [], ◌∷◌, ℕ, ◌+◌, ◌-◌, ◌≤◌, ◌<◌};
ghost use Rattle.basis.specs.Limits.{max_constructs};
ghost use Rattle.table_layout.specs.Constructs.{construct_at};
ghost use Rattle.table_layout.specs.Held.{size_of as size_of};
ghost use Rattle.table_first_follow.specs.Parts.{siblings};
ghost use Rattle.theory.specs.Grammar.{◌∈◌};
ghost use Rattle.report_chain_meaning.specs.Chains.{leaves, goes_on, after};
ghost use Rattle.report_chain_steps.specs.Told.{steps_of as steps_of};
ghost use Rattle.report_chain_steps.specs.Replayed.{stack, rest_of as rest_of, Moved, MovedTo};

use report_chain_steps::constructs::body_of;
use report_chain_steps::parts::{below_parts, end_of, has_part};
use report_chain_steps::stack::below_copies;
use table_first_follow::parts::size_at;
use table_layout::{Construct, construct_at};

// Out of the rule that construct p uses.
fn after_rule(table: &[u32], items: &[usize], depth: usize, p: usize) -> usize
    requires { p < max_constructs }
    ensures { MovedTo table.now items.now depth p result (leaves p ∷ []) }
{
    if depth == 0 {
        match construct_at(table, p) {
            Construct::Use { rule } => {
                let body = body_of(table, rule);
                if body < 256 {
                    return body + 1;
                }
                0
            }
            _ => 0,
        }
    } else {
        0
    }
}

// After a pass of repetition p, v further ones.
fn after_pass(table: &[u32], items: &[usize], depth: usize, p: usize, v: usize) -> usize
    requires { p < max_constructs }
    ensures { MovedTo table.now items.now depth p result (goes_on p v ∷ []) }
{
    if v == 0 {
        return 0;
    }
    if 8 < v {
        return 0;
    }
    if below_copies(items, depth, p + 1, v) == 0 {
        match construct_at(table, p) {
            Construct::Repetition { .. } => p + 2,
            _ => 0,
        }
    } else {
        0
    }
}

// After the last.
fn after_last_pass(table: &[u32], items: &[usize], depth: usize, p: usize) -> usize
    requires { p < max_constructs }
    ensures { MovedTo table.now items.now depth p result [] }
{
    if depth == 0 {
        match construct_at(table, p) {
            Construct::Repetition { .. } => p + 2,
            _ => 0,
        }
    } else {
        0
    }
}

// Whether the parts after part m, up to `end`, are all that is on the stack.
fn others_after(table: &[u32], items: &[usize], depth: usize, m: usize, end: usize) -> bool
    requires { end ≤ max_constructs }
    ensures { result ≡ true → m < end → siblings table.now m end ≡ m ∷ stack table.now items.now depth }
{
    if m < 256 {
        let size = size_at(table, m);
        if size == 0 {
            return false;
        }
        return below_parts(table, items, depth, m + size, end) == 0;
    }
    false
}

// Member m of concatenation p.
fn after_member(table: &[u32], items: &[usize], depth: usize, p: usize, m: usize) -> usize
    requires { p < max_constructs }
    ensures { MovedTo table.now items.now depth p result [] }
{
    let end = end_of(table, p);
    if has_part(table, p + 1, end, m) {
        if others_after(table, items, depth, m, end) {
            match construct_at(table, p) {
                Construct::Concatenation { .. } => m + 1,
                _ => 0,
            }
        } else {
            0
        }
    } else {
        0
    }
}

// Branch or case b of construct p.
fn after_branch(table: &[u32], items: &[usize], depth: usize, p: usize, b: usize) -> usize
    requires { p < max_constructs }
    ensures { MovedTo table.now items.now depth p result [] }
{
    if depth == 0 {
        if has_part(table, p + 1, end_of(table, p), b) {
            match construct_at(table, p) {
                Construct::Alternative { .. } => b + 1,
                Construct::Switch { .. } => b + 1,
                _ => 0,
            }
        } else {
            0
        }
    } else {
        0
    }
}

// After construct p, by the entry's tag.
fn moved_from(
    table: &[u32],
    items: &[usize],
    depth: usize,
    p: usize,
    tag: usize,
    i: usize,
    v: usize,
) -> usize
    requires { p < max_constructs }
    ensures { MovedTo table.now items.now depth p result (steps_of tag i v) }
{
    if tag == 11 {
        return after_member(table, items, depth, p, i);
    }
    if tag == 12 {
        return after_branch(table, items, depth, p, i);
    }
    if tag == 13 {
        return after_last_pass(table, items, depth, p);
    }
    if i == p {
        if tag == 5 {
            return after_rule(table, items, depth, p);
        }
        if tag == 6 {
            return after_pass(table, items, depth, p, v);
        }
    }
    0
}

pub fn moved(
    table: &[u32],
    items: &[usize],
    depth: usize,
    rest: usize,
    tag: usize,
    i: usize,
    v: usize,
) -> usize
    ensures { 0 < result → Moved table.now (stack table.now items.now depth) (rest_of rest) (rest_of result) (steps_of tag i v) }
{
    if rest == 0 {
        return 0;
    }
    if 256 < rest {
        return 0;
    }
    moved_from(table, items, depth, rest - 1, tag, i, v)
}
