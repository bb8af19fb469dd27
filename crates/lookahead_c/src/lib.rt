// The lookahead sets for tests in Rust: a lent slice has three sets of eight words, two that are given and a third for the result.
#![tactic(auto)]

ghost use Rattle.lookahead.specs.Sets.{Joined, Union};
ghost use Rattle.lookahead_c.specs.Calls.{Made, Least, Adds, Narrowed};

use lookahead_slices::{family, narrow};

#[unsafe(no_mangle)]
pub extern "C" fn lookahead_c_join(sets: &mut [u64]) -> bool
    ensures { Made Joined sets.old sets.new result }
{
    if sets.len() < 24 {
        return false;
    }
    let a = family::load(sets, 0);
    let b = family::load(sets, 1);
    family::store(sets, 2, lookahead::join(a, b));
    true
}

#[unsafe(no_mangle)]
pub extern "C" fn lookahead_c_union(sets: &mut [u64]) -> bool
    ensures { Made Union sets.old sets.new result }
{
    if sets.len() < 24 {
        return false;
    }
    let a = family::load(sets, 0);
    let b = family::load(sets, 1);
    family::store(sets, 2, lookahead::union(a, b));
    true
}

#[unsafe(no_mangle)]
pub extern "C" fn lookahead_c_least(sets: &[u64]) -> usize
    ensures { Least sets.now result }
{
    if sets.len() < 16 {
        return 0;
    }
    lookahead::least_common(family::load(sets, 0), family::load(sets, 1)).unwrap_or(0)
}

// Adds the second set to the first, and says whether that changed it.
#[unsafe(no_mangle)]
pub extern "C" fn lookahead_c_add(sets: &mut [u64]) -> bool
    ensures { Adds sets.old sets.new result }
{
    if sets.len() < 16 {
        return false;
    }
    let b = family::load(sets, 1);
    family::add(sets, 0, b)
}

// Writes a set as a table has it.
#[unsafe(no_mangle)]
pub extern "C" fn lookahead_c_narrow(set: &[u64], table: &mut [u32]) -> bool
    ensures { Narrowed set.now table.old table.new result }
{
    if set.len() < 8 || table.len() < 16 {
        return false;
    }
    narrow::put(table, 0, family::load(set, 0));
    true
}
