// FIRST sets.
ghost use Rattle.std.specs.Prelude.{◌≡◌, ◌<◌, length};
ghost use Rattle.table_first_follow.specs.Rounds.{Between, FirstStep, FirstClosed, From, first_low as firstLow, first_of as first_of};
ghost use Rattle.table_first_follow.specs.Sets.{FirstSets, sets_held, family_words};

use crate::{SETS_HELD, fields, order, rules};

// What the rule of construct i makes of the sets is added to its own; whether a word grew.
fn apply(table: &[u32], family: &mut [u64], i: usize) -> bool
    requires { (length family.old ≡ family_words) × (i < sets_held) }
    ensures { FirstStep table.now (FirstClosed table.now i) family.old family.new result }
{
    let set = rules::applied(table, family, i);
    lookahead_slices::family::add(family, i, set)
}

// From the last construct down, so that parts come before their owners.
fn round(table: &[u32], family: &mut [u64]) -> bool
    requires { length family.old ≡ family_words }
    ensures { FirstStep table.now (From (FirstClosed table.now) 0) family.old family.new result }
{
    let mut grew = false;
    for i in (0..SETS_HELD).rev() {
        grew |= apply(table, family, i);
    }
    grew
}

// The sets of fields and eods, and for all others none.
fn seeds(table: &[u32], family: &mut [u64])
    requires { length family.old ≡ family_words }
    ensures { Between (firstLow table.now) (first_of table.now) family.new }
{
    for i in 0..SETS_HELD {
        lookahead_slices::family::store(family, i, fields::seed(table, i));
    }
}

// The same for any number; one past the family's is of no construct.
fn apply_any(table: &[u32], family: &mut [u64], i: usize)
    requires { Between (firstLow table.now) (first_of table.now) family.old }
    ensures { Between (firstLow table.now) (first_of table.now) family.new }
{
    if i < SETS_HELD {
        apply(table, family, i);
    }
}

// Each construct of the order once.
fn pass(table: &[u32], order: &[usize], family: &mut [u64])
    requires { Between (firstLow table.now) (first_of table.now) family.old }
    ensures { Between (firstLow table.now) (first_of table.now) family.new }
{
    for k in 0..order.len() {
        apply_any(table, family, order[k]);
    }
}

// FIRST of each construct, and of the opening use, in the family's words, whatever they were: once through the order, whatever it is, and then rounds
// until nothing grows. Where the order is right, one round sees that all is done.
pub fn first_in_order(table: &[u32], order: &[usize], family: &mut [u64])
    requires { length family.old ≡ family_words }
    ensures { FirstSets table.now family.new }
{
    seeds(table, family);
    pass(table, order, family);
    let mut more = true;
    while more {
        more = round(table, family);
    }
}

pub fn first(table: &[u32], family: &mut [u64])
    requires { length family.old ≡ family_words }
    ensures { FirstSets table.now family.new }
{
    let mut places = [SETS_HELD; SETS_HELD];
    order::fill(table, &mut places);
    first_in_order(table, &places, family);
}
