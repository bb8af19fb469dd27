// Who holds a construct, what its parts are, which rule it is the body of, and where that is used.
ghost use Rattle.std.specs.Prelude.{◌<◌, ◌-◌};
ghost use Rattle.std.specs.Iterator.{at_most};

use table_layout::{Construct, RULES_AT, construct_at, size_at, size_of, word};

// Parts of a construct, the first first.
#[derive(Drop)]
pub struct Parts<'a> {
    table: &'a [u32],
    at: usize,
    end: usize,
}

impl<'a> Iterator for Parts<'a> {
    type Item = usize;

    ghost remaining = { λ s. at_most (s.end - s.at) };

    fn next(&mut self) -> Option<usize> {
        let at = self.at;
        if self.end <= at {
            return None;
        }
        self.at = after(self.table, at, self.end);
        Some(at)
    }
}

// The part after one.
pub fn after(table: &[u32], at: usize, end: usize) -> usize
    ensures { at < end → at < result }
{
    let size = size_of(construct_at(table, at));
    if 0 < size && at < 512 && size < 512 {
        return at + size;
    }
    end
}

// The parts from `start` up to `end`.
pub fn parts_from<'a>(table: &'a [u32], start: usize, end: usize) -> Parts<'a> {
    Parts {
        table,
        at: start,
        end,
    }
}

// The parts of construct i.
pub fn parts_of<'a>(table: &'a [u32], i: usize) -> Parts<'a> {
    parts_from(table, next(i), end_of(i, size_of(construct_at(table, i))))
}

// The number after construct i, which is that of its first part.
pub fn next(i: usize) -> usize {
    if i < 256 { i + 1 } else { 256 }
}

// The number after construct i and all below it.
pub fn end_of(i: usize, size: usize) -> usize {
    if i < 256 && size <= 256 {
        return i + size;
    }
    i
}

// By the size alone: most places hold no construct, and this is asked of all before one.
fn holds(table: &[u32], j: usize, i: usize) -> bool {
    j < i && i - j < size_at(table, j)
}

// The construct that has i as a part; a rule's body has none.
pub fn parent_of(table: &[u32], i: usize) -> Option<usize> {
    (0..i).rev().find(|&j| holds(table, j, i))
}

// The construct that is a rule's body; 256 where there is no such rule.
pub fn body_of(table: &[u32], rule: usize) -> usize {
    if rule < 64 {
        return word(table, RULES_AT + 4 * rule);
    }
    256
}

// How many rules there are.
pub fn rules(table: &[u32]) -> usize {
    word(table, 1).min(64)
}

// The rule whose body construct i is.
pub fn rule_of(table: &[u32], i: usize) -> Option<usize> {
    (0..rules(table)).find(|&k| body_of(table, k) == i)
}

// Whether construct j uses the rule.
pub fn is_use(table: &[u32], j: usize, rule: usize) -> bool {
    match construct_at(table, j) {
        Construct::Use { rule: used } => used == rule,
        _ => false,
    }
}

// Whether a construct uses the rule.
pub fn is_used(table: &[u32], rule: usize) -> bool {
    (0..256).any(|j| is_use(table, j, rule))
}
