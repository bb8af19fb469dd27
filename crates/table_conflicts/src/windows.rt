// The least windows that parts of a construct share, and which parts have a window.
ghost use Rattle.std.specs.Prelude.{◌≡◌, ◌≤◌, length};
ghost use Rattle.table_first_follow.specs.Sets.{family_words};
ghost use Rattle.basis.specs.Limits.{max_constructs};
ghost use Rattle.basis.specs.Bits.{Bits};
ghost use Rattle.lookahead.specs.Sets.{Has, Decides};
ghost use Rattle.table_first_follow.specs.Rounds.{strings};
ghost use Rattle.table_first_follow.specs.Parts.{siblings};
ghost use Rattle.table_conflicts.specs.Conflicts.{HasNumber};
ghost use Rattle.table_conflicts.specs.Windows.{Lowest, lower_of, Shared, FirstFrom};

use lookahead::Set;
use table_first_follow::parts::{set_of, size_at};

// The least number of the strings in both sets; 0 where there are none.
pub fn shared(a: Set, b: Set) -> usize
    ensures { Lowest (λ (x : Bits). Has a.words x × Has b.words x) result }
{
    lookahead::least_common(a, b).unwrap_or(0)
}

fn lower(a: usize, b: usize) -> usize
    ensures { result ≡ lower_of a b }
{
    if a == 0 {
        return b;
    }
    if b == 0 {
        return a;
    }
    if a < b {
        return a;
    }
    b
}

// The least window of two of the parts from `start` up to `end`: each part's with all those before it.
pub fn least_shared(table: &[u32], family: &[u64], start: usize, end: usize) -> usize
    requires { (length family.now ≡ family_words) × (end ≤ max_constructs) }
    ensures { Lowest (Shared (strings family.now) (siblings table.now start end)) result }
{
    let mut seen = lookahead::empty();
    let mut least = 0;
    let mut at = start;
    while at < end {
        let set = set_of(family, at);
        least = lower(least, shared(seen, set));
        seen = lookahead::union(seen, set);
        let size = size_at(table, at);
        if size == 0 {
            return least;
        }
        at += size;
    }
    least
}

fn holds(family: &[u64], at: usize, from: usize, n: usize) -> bool
    requires { length family.now ≡ family_words }
    ensures { Decides result ((from ≤ at) × HasNumber (strings family.now) at n) }
{
    if from <= at {
        return lookahead::contains(set_of(family, at), n);
    }
    false
}

// The first of the parts, from number `from` on, that has the window with number n; `end` where none has it.
pub fn holder(
    table: &[u32],
    family: &[u64],
    start: usize,
    end: usize,
    from: usize,
    n: usize,
) -> usize
    requires { (length family.now ≡ family_words) × (end ≤ max_constructs) }
    ensures { FirstFrom (strings family.now) (siblings table.now start end) from n end result }
{
    let mut at = start;
    while at < end {
        if holds(family, at, from, n) {
            return at;
        }
        let size = size_at(table, at);
        if size == 0 {
            return end;
        }
        at += size;
    }
    end
}
