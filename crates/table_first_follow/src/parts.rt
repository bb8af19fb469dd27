// The parts of a construct: its first is the next number, and each is as far after the one before as that one is large.
ghost use Rattle.std.specs.Prelude.{◌≡◌, ◌≤◌, ◌<◌, ltb, length, take};
ghost use Rattle.table_first_follow.specs.Sets.{family_words};
ghost use Rattle.basis.specs.Limits.{max_constructs};
ghost use Rattle.lookahead.specs.Sets.{Has, Is};
ghost use Rattle.table_layout.specs.Constructs.{construct_at};
ghost use Rattle.table_layout.specs.Places.{construct_word};
ghost use Rattle.table_layout.specs.Held.{size_of as size_of, no_default};
ghost use Rattle.table_first_follow.specs.Rounds.{strings};
ghost use Rattle.table_first_follow.specs.Parts.{siblings, Combined, Neutral, Gathered};

use crate::SETS_HELD;
use lookahead::Set;
use table_layout::{CONSTRUCTS_AT, Construct, construct_at};

pub fn size_at(table: &[u32], i: usize) -> usize
    ensures { (result ≡ size_of (construct_at table.now i)) × (result ≤ max_constructs) }
{
    table_layout::size_of(construct_at(table, i))
}

// Set i of a family in the one form of a set; a number past the family's has none.
pub fn set_of(family: &[u64], i: usize) -> Set
    requires { length family.now ≡ family_words }
    ensures { Is result.words (strings family.now i) }
{
    if i < SETS_HELD {
        return lookahead::union(
            lookahead::empty(),
            lookahead_slices::family::load(family, i),
        );
    }
    lookahead::empty()
}

pub fn neutral(joined: bool) -> Set
    ensures { Is result.words (Neutral joined) }
{
    if joined {
        return lookahead::single(1);
    }
    lookahead::empty()
}

fn combine(joined: bool, a: Set, b: Set) -> Set
    ensures { Is result.words (Combined joined (Has a.words) (Has b.words)) }
{
    if joined {
        return lookahead::join(a, b);
    }
    lookahead::union(a, b)
}

// The sets of the parts from `start` up to `end`, all joined or all united.
pub fn gather(table: &[u32], family: &[u64], start: usize, end: usize, joined: bool) -> Set
    requires { (length family.now ≡ family_words) × (end ≤ max_constructs) }
    ensures { Is result.words (Gathered joined (strings family.now) (siblings table.now start end)) }
{
    let mut out = neutral(joined);
    let mut at = start;
    while at < end {
        out = combine(joined, out, set_of(family, at));
        let size = size_at(table, at);
        if size == 0 {
            return out;
        }
        at += size;
    }
    out
}

// Whether construct i has a condition.
fn conditioned(table: &[u32], i: usize) -> bool
    requires { i < max_constructs }
    ensures { result ≡ ltb (construct_word table.now i 6) (construct_word table.now i 7) }
{
    let start = table_layout::word(table, CONSTRUCTS_AT + 8 * i + 6);
    let end = table_layout::word(table, CONSTRUCTS_AT + 8 * i + 7);
    start < end
}

// Whether each case from `start` up to `end` has a condition, so that there is no default.
pub fn no_default(table: &[u32], start: usize, end: usize) -> bool
    requires { end ≤ max_constructs }
    ensures { result ≡ no_default table.now (siblings table.now start end) }
{
    let mut at = start;
    while at < end {
        if !conditioned(table, at) {
            return false;
        }
        let size = size_at(table, at);
        if size == 0 {
            return true;
        }
        at += size;
    }
    true
}

// The numbers of the parts from `start` up to `end`; how many there are.
pub fn places(table: &[u32], start: usize, end: usize, out: &mut [usize]) -> usize
    requires { (length out.old ≡ max_constructs) × (end ≤ max_constructs) }
    ensures { (take result out.new ≡ siblings table.now start end) × (result ≤ max_constructs) }
{
    let mut n = 0;
    let mut at = start;
    while at < end {
        out[n] = at;
        n += 1;
        let size = size_at(table, at);
        if size == 0 {
            return n;
        }
        at += size;
    }
    n
}
