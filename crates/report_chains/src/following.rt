// What comes after a construct is taken off the list, and what it is made of put on.
use crate::choices::{passes, push_parts, push_passes};
use crate::entries::{Chain, Tag, closed, noted, push};
use crate::uses::use_before;
use report_measures::structure::{after as after_part, end_of, next, parent_of, rule_of};
use report_measures::words::set_at;
use table_layout::{Construct, construct_at};

// After construct i, where what is left fits its FOLLOW strings.
pub fn push_after(
    follow: &[u64],
    items: &mut [usize],
    sets: &mut [u64],
    chain: Chain,
    i: usize,
) -> Chain {
    if i < 256 {
        return push(items, sets, chain, 256 + i, set_at(follow, i));
    }
    closed(chain)
}

// After a rule's body: the frame's end, or what comes after a use of the rule.
fn after_rule(
    table: &[u32],
    follow: &[u64],
    items: &mut [usize],
    sets: &mut [u64],
    steps: &mut [usize],
    chain: Chain,
    rule: usize,
) -> Chain {
    if rule == 0 && chain.target == 1 && chain.whole {
        return closed(noted(steps, chain, Tag::FrameEnd, 0, 0));
    }
    match use_before(table, follow, rule, chain.target, chain.whole) {
        Some(user) => {
            let told = noted(steps, chain, Tag::Leaves, user, rule);
            push_after(follow, items, sets, told, user)
        }
        None => closed(chain),
    }
}

// After a pass: further passes, and what comes after the repetition.
fn after_pass(
    first: &[u64],
    follow: &[u64],
    items: &mut [usize],
    sets: &mut [u64],
    steps: &mut [usize],
    chain: Chain,
    p: usize,
) -> Chain {
    let body = next(p);
    let set = set_at(first, body);
    let Some(n) = passes(set, set_at(follow, p), 0, 8, chain.target, chain.whole) else {
        return closed(chain);
    };
    let all = push_after(follow, items, sets, more(steps, chain, p, n), p);
    push_passes(items, sets, all, body, set, n)
}

fn more(steps: &mut [usize], chain: Chain, p: usize, n: usize) -> Chain {
    if n == 0 {
        return noted(steps, chain, Tag::LastPass, next(p), 0);
    }
    noted(steps, chain, Tag::GoesOn, p, n)
}

fn after_member(
    table: &[u32],
    first: &[u64],
    follow: &[u64],
    items: &mut [usize],
    sets: &mut [u64],
    chain: Chain,
    i: usize,
    p: usize,
    size: usize,
) -> Chain {
    let all = push_after(follow, items, sets, chain, p);
    let end = end_of(p, size);
    push_parts(
        table,
        first,
        items,
        sets,
        all,
        after_part(table, i, end),
        end,
    )
}

// What comes after construct i, a part of p.
fn after_in(
    table: &[u32],
    first: &[u64],
    follow: &[u64],
    items: &mut [usize],
    sets: &mut [u64],
    steps: &mut [usize],
    chain: Chain,
    i: usize,
    p: usize,
) -> Chain {
    match construct_at(table, p) {
        Construct::Concatenation { size } => {
            let told = noted(steps, chain, Tag::MemberEnd, i, 0);
            after_member(table, first, follow, items, sets, told, i, p, size)
        }
        Construct::Repetition { .. } => { after_pass(first, follow, items, sets, steps, chain, p) }
        _ => push_after(
            follow,
            items,
            sets,
            noted(steps, chain, Tag::BranchEnd, i, 0),
            p,
        ),
    }
}

pub fn after(
    table: &[u32],
    first: &[u64],
    follow: &[u64],
    items: &mut [usize],
    sets: &mut [u64],
    steps: &mut [usize],
    chain: Chain,
    i: usize,
) -> Chain {
    if let Some(p) = parent_of(table, i) {
        return after_in(table, first, follow, items, sets, steps, chain, i, p);
    }
    match rule_of(table, i) {
        Some(rule) => after_rule(table, follow, items, sets, steps, chain, rule),
        None => closed(chain),
    }
}
