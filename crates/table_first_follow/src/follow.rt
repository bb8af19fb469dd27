// FOLLOW sets. A construct hands what follows it on to its parts.
ghost use Rattle.std.specs.Prelude.{◌≡◌, ◌≤◌, ◌<◌, length};
ghost use Rattle.basis.specs.Limits.{max_constructs};
ghost use Rattle.lookahead.specs.Sets.{Has, Is, Proper};
ghost use Rattle.table_first_follow.specs.Parts.{siblings};
ghost use Rattle.table_first_follow.specs.Rounds.{Between, strings, within, first_of as first_of, follow_of as followOf, follow_low as followLow, FollowStep, FollowClosed, From};
ghost use Rattle.table_first_follow.specs.Follows.{Given, Before, Handed, Started, StartSets};
ghost use Rattle.table_first_follow.specs.Sets.{FirstSets, FollowSets, sets_held, family_words};

use crate::{SETS_HELD, parts, rules};
use basis::MAX_CONSTRUCTS;
use lookahead::Set;
use table_layout::{Below, OPENING, attributes_of, construct_at};

// A number past the family's is of no construct, and nothing is kept for it.
fn give(family: &mut [u64], b: usize, set: Set) -> bool
    requires { length family.old ≡ family_words }
    ensures { Given family.old family.new b set.words result }
{
    if b < SETS_HELD {
        return lookahead_slices::family::add(family, b, set);
    }
    false
}

fn before(first: &[u64], m: usize, tail: Set, joined: bool) -> Set
    requires { (length first.now ≡ family_words) × Proper tail.words }
    ensures { Is result.words (Before joined (strings first.now m) (Has tail.words)) }
{
    if joined {
        return lookahead::join(parts::set_of(first, m), tail);
    }
    tail
}

// The parts from `start` up to `end` get what follows them: of members the ones after, joined with `set`, of branches `set` itself. From the
// last part down, so that each costs one join.
fn hand(
    table: &[u32],
    first: &[u64],
    family: &mut [u64],
    start: usize,
    end: usize,
    set: Set,
    joined: bool,
) -> bool
    requires { (length family.old ≡ family_words) × (length first.now ≡ family_words) × (end ≤ max_constructs) × FirstSets table.now first.now × Proper set.words × Handed joined (first_of table.now) (Has set.words) (followOf table.now) (siblings table.now start end) }
    ensures { FollowStep table.now (λ words. Handed joined (first_of table.now) (Has set.words) (within words) (siblings table.now start end)) family.old family.new result }
{
    let mut places = [0usize; MAX_CONSTRUCTS];
    let mut tail = set;
    let mut grew = false;
    let count = parts::places(table, start, end, &mut places);
    for k in (0..count).rev() {
        let m = places[k];
        grew |= give(family, m, tail);
        tail = before(first, m, tail, joined);
    }
    grew
}

fn push_inside(table: &[u32], first: &[u64], family: &mut [u64], i: usize) -> bool
    requires { (i < max_constructs) × (length first.now ≡ family_words) × FirstSets table.now first.now × Between (followLow table.now) (followOf table.now) family.old }
    ensures { FollowStep table.now (FollowClosed table.now i) family.old family.new result }
{
    let set = parts::set_of(family, i);
    let attributes = attributes_of(construct_at(table, i));
    let end = i + attributes.size;
    let rule = attributes.rule;
    let below = attributes.below;
    match below {
        Below::Nothing => false,
        Below::Branches => hand(table, first, family, i + 1, end, set, false),
        Below::Members => hand(table, first, family, i + 1, end, set, true),
        Below::Body { passes: _ } => {
            let further = lookahead::passes::at_least(parts::set_of(first, i + 1), 0);
            give(family, i + 1, lookahead::join(further, set))
        }
        Below::Cases => hand(table, first, family, i + 1, end, set, false),
        Below::Rule => give(family, rules::body_of(table, rule), set),
    }
}

// What follows construct i, as far as the family has it, goes on to its parts; whether a word grew.
fn push(table: &[u32], first: &[u64], family: &mut [u64], i: usize) -> bool
    requires { (i < sets_held) × (length first.now ≡ family_words) × FirstSets table.now first.now × Between (followLow table.now) (followOf table.now) family.old }
    ensures { FollowStep table.now (FollowClosed table.now i) family.old family.new result }
{
    if i < MAX_CONSTRUCTS {
        return push_inside(table, first, family, i);
    }
    let set = parts::set_of(family, i);
    give(family, rules::body_of(table, 0), set)
}

// From construct 0 up: an owner comes before its parts.
fn push_all(table: &[u32], first: &[u64], family: &mut [u64]) -> bool
    requires { (length first.now ≡ family_words) × FirstSets table.now first.now × Between (followLow table.now) (followOf table.now) family.old }
    ensures { FollowStep table.now (From (FollowClosed table.now) 0) family.old family.new result }
{
    let mut grew = false;
    for i in (0..SETS_HELD).rev() {
        grew |= push(table, first, family, OPENING - i);
    }
    grew
}

fn start(i: usize) -> Set
    ensures { Is result.words (Started i) }
{
    if i == OPENING {
        return lookahead::single(1);
    }
    lookahead::empty()
}

// The empty string follows the opening use of the start rule.
fn starts(family: &mut [u64])
    requires { length family.old ≡ family_words }
    ensures { StartSets family.new }
{
    for i in 0..SETS_HELD {
        lookahead_slices::family::store(family, i, start(i));
    }
}

// The same for any number; one past the family's is of no construct.
fn push_any(table: &[u32], first: &[u64], family: &mut [u64], i: usize)
    requires { (length first.now ≡ family_words) × FirstSets table.now first.now × Between (followLow table.now) (followOf table.now) family.old }
    ensures { Between (followLow table.now) (followOf table.now) family.new }
{
    if i < SETS_HELD {
        push(table, first, family, i);
    }
}

// Each construct of the order once, the last first: users before what they use.
fn pass(table: &[u32], order: &[usize], first: &[u64], family: &mut [u64])
    requires { (length first.now ≡ family_words) × FirstSets table.now first.now × Between (followLow table.now) (followOf table.now) family.old }
    ensures { Between (followLow table.now) (followOf table.now) family.new }
{
    for k in (0..order.len()).rev() {
        push_any(table, first, family, order[k]);
    }
}

// FOLLOW of each construct, and of the opening use, in the family's words, whatever they were; `first` has FIRST. Once through the order, whatever it
// is, and then rounds until nothing grows.
pub fn follow(table: &[u32], order: &[usize], first: &[u64], family: &mut [u64])
    requires { (length family.old ≡ family_words) × (length first.now ≡ family_words) × FirstSets table.now first.now }
    ensures { FollowSets table.now family.new }
{
    starts(family);
    pass(table, order, first, family);
    let mut more = true;
    while more {
        more = push_all(table, first, family);
    }
}
