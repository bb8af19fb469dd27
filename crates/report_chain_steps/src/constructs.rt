// A construct that was gone through: what it is made of comes off the stack. The answer is how many rows are below that.
ghost use Rattle.std.specs.Prelude.{◌≡◌, List, [], ◌∷◌, ℕ, ◌<◌};
ghost use Rattle.basis.specs.Limits.{max_constructs};
ghost use Rattle.table_layout.specs.Places.{rule_word as ruleWord};
ghost use Rattle.report_chain_meaning.specs.Chains.{enters, repeats, ends, passes_over};
ghost use Rattle.report_chain_steps.specs.Told.{steps_of as steps_of};
ghost use Rattle.report_chain_steps.specs.Replayed.{no_depth, stack, MadeAt};

use crate::NO_DEPTH;
use crate::counts::below_passes;
use crate::parts::{below_part, below_parts, end_of};
use crate::stack::below_top;
use table_first_follow::parts::no_default;
use table_layout::{Construct, RULES_AT, construct_at};

// The construct that is a rule's body.
pub fn body_of(table: &[u32], rule: usize) -> usize
    ensures { result < max_constructs → result ≡ ruleWord table.now rule 0 }
{
    if rule < 64 {
        return table_layout::word(table, RULES_AT + 4 * rule);
    }
    256
}

fn of_use(table: &[u32], items: &[usize], depth: usize, i: usize) -> usize
    requires { i < max_constructs }
    ensures { MadeAt table.now items.now depth result i (enters i ∷ []) }
{
    match construct_at(table, i) {
        Construct::Use { rule } => {
            let body = body_of(table, rule);
            if body < 256 {
                return below_top(items, depth, body);
            }
            NO_DEPTH
        }
        _ => NO_DEPTH,
    }
}

fn of_repetition(table: &[u32], items: &[usize], depth: usize, i: usize, n: usize) -> usize
    requires { i < max_constructs }
    ensures { MadeAt table.now items.now depth result i (repeats i n ∷ []) }
{
    match construct_at(table, i) {
        Construct::Repetition { passes, .. } => { below_passes(table, items, depth, i, passes, n) }
        _ => NO_DEPTH,
    }
}

fn of_eod(table: &[u32], items: &[usize], depth: usize, i: usize) -> usize
    requires { i < max_constructs }
    ensures { MadeAt table.now items.now depth result i (ends i ∷ []) }
{
    match construct_at(table, i) {
        Construct::Eod => depth,
        _ => NO_DEPTH,
    }
}

// A switch without a default.
fn of_no_case(table: &[u32], items: &[usize], depth: usize, i: usize) -> usize
    requires { i < max_constructs }
    ensures { MadeAt table.now items.now depth result i (passes_over i ∷ []) }
{
    match construct_at(table, i) {
        Construct::Switch { .. } => {
            if no_default(table, i + 1, end_of(table, i)) {
                return depth;
            }
            NO_DEPTH
        }
        _ => NO_DEPTH,
    }
}

// A branch of an alternative, or a case of a switch.
fn of_branch(table: &[u32], items: &[usize], depth: usize, i: usize) -> usize
    requires { i < max_constructs }
    ensures { MadeAt table.now items.now depth result i [] }
{
    match construct_at(table, i) {
        Construct::Alternative { .. } => {
            below_part(table, items, depth, i + 1, end_of(table, i))
        }
        Construct::Switch { .. } => { below_part(table, items, depth, i + 1, end_of(table, i)) }
        _ => NO_DEPTH,
    }
}

fn of_members(table: &[u32], items: &[usize], depth: usize, i: usize) -> usize
    requires { i < max_constructs }
    ensures { MadeAt table.now items.now depth result i [] }
{
    match construct_at(table, i) {
        Construct::Concatenation { .. } => {
            below_parts(table, items, depth, i + 1, end_of(table, i))
        }
        _ => NO_DEPTH,
    }
}

// By the entry's tag.
pub fn made(table: &[u32], items: &[usize], depth: usize, tag: usize, i: usize, v: usize) -> usize
    ensures { MadeAt table.now items.now depth result i (steps_of tag i v) }
{
    if 256 <= i {
        return NO_DEPTH;
    }
    match tag {
        2 => of_use(table, items, depth, i),
        3 => of_repetition(table, items, depth, i, v),
        4 => of_eod(table, items, depth, i),
        8 => of_no_case(table, items, depth, i),
        9 => of_branch(table, items, depth, i),
        10 => of_members(table, items, depth, i),
        _ => NO_DEPTH,
    }
}
