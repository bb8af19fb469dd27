// Chains that are found, and listed only where they were read again and are chains.
ghost use Rattle.std.specs.Prelude.{true, ◌≡◌, [], ◌<◌, ◌≤◌, length, get_or};
ghost use Rattle.basis.specs.Limits.{max_constructs};
ghost use Rattle.table_layout.specs.Held.{held};
ghost use Rattle.table_first_follow.specs.Sets.{FirstSets, FollowSets, family_words};
ghost use Rattle.report_chain_meaning.specs.Chains.{Yields, YieldsAfter, YieldsAlone};
ghost use Rattle.report_chains.specs.Strings.{string};
ghost use Rattle.report_chain_steps.specs.Told.{told, FirstFamily, Families};
ghost use Rattle.report_chain_steps.specs.Replayed.{no_depth, Tail};

use crate::replay::replayed;
use crate::starts::{at_end, at_field, at_nothing};
use report_chain_steps::Place;
use report_chain_steps::fields::failed;
use report_chain_steps::words::number_at;
use report_chains::machine;

// At the last entry.
fn at_last(
    table: &[u32],
    first: &[u64],
    follow: &[u64],
    steps: &[usize],
    items: &mut [usize],
    k: usize,
    depth: usize,
    window: usize,
) -> Place
    requires { (k < 1024) × (length first.now ≡ family_words) × (length follow.now ≡ family_words) × FirstSets table.now first.now × FollowSets table.now follow.now }
    ensures { result.depth < no_depth → Tail table.now items.new result (told steps.now k 1) }
{
    let tag = number_at(steps, 3 * k);
    let i = number_at(steps, 3 * k + 1);
    let v = number_at(steps, 3 * k + 2);
    if tag == 1 {
        return at_field(table, first, follow, items, depth, i, v);
    }
    if tag == 7 {
        return at_end(table, window);
    }
    failed()
}

// All entries, the last first.
fn all(
    table: &[u32],
    first: &[u64],
    follow: &[u64],
    steps: &[usize],
    items: &mut [usize],
    count: usize,
    depth: usize,
    window: usize,
) -> Place
    requires { Families table.now first.now follow.now }
    ensures { result.depth < no_depth → Tail table.now items.new result (told steps.now 0 count) }
{
    if count == 0 {
        return failed();
    }
    if 1024 < count {
        return failed();
    }
    let last = at_last(table, first, follow, steps, items, count - 1, depth, window);
    if last.depth < 1024 {
        return replayed(table, first, steps, items, last, count - 1);
    }
    failed()
}

// Whether all that was to be read was construct i, or nothing, and the window is spelt.
fn is_whole(at: Place, rest: usize, window: usize) -> bool
    ensures { result ≡ true → (at.rest ≡ rest) × (at.left ≡ 8) × (at.seen ≡ window) }
{
    at.rest == rest && at.left == 8 && at.seen == window
}

fn is_one(items: &[usize], at: Place, i: usize) -> bool
    ensures { result ≡ true → (at.depth ≡ 1) × (i < max_constructs) × (get_or items.now 1 0 ≡ i) }
{
    at.depth == 1 && i < 256 && number_at(items, 1) == i
}

fn yields(
    table: &[u32],
    first: &[u64],
    follow: &[u64],
    steps: &[usize],
    items: &mut [usize],
    count: usize,
    depth: usize,
    i: usize,
    window: usize,
) -> bool
    requires { Families table.now first.now follow.now }
    ensures { result ≡ true → Yields (held table.now) i (string window) (told steps.now 0 count) }
{
    let at = all(table, first, follow, steps, items, count, depth, window);
    if is_one(items, at, i) {
        return is_whole(at, i + 1, window);
    }
    false
}

fn yields_after(
    table: &[u32],
    first: &[u64],
    follow: &[u64],
    steps: &[usize],
    items: &mut [usize],
    count: usize,
    depth: usize,
    i: usize,
    window: usize,
) -> bool
    requires { Families table.now first.now follow.now }
    ensures { result ≡ true → YieldsAfter (held table.now) i (string window) (told steps.now 0 count) }
{
    let at = all(table, first, follow, steps, items, count, depth, window);
    if i < 256 && at.depth == 0 {
        return is_whole(at, i + 1, window);
    }
    false
}

fn yields_alone(
    table: &[u32],
    first: &[u64],
    steps: &[usize],
    items: &mut [usize],
    count: usize,
    i: usize,
) -> bool
    requires { FirstFamily table.now first.now }
    ensures { result ≡ true → YieldsAlone (held table.now) i [] (told steps.now 0 count) }
{
    if 1024 < count {
        return false;
    }
    let at = replayed(table, first, steps, items, at_nothing(), count);
    if is_one(items, at, i) {
        return is_whole(at, 0, 1);
    }
    false
}

// How construct i and what comes after it spell the window: how many entries are listed, 0 where none is found.
pub fn goes(
    table: &[u32],
    first: &[u64],
    follow: &[u64],
    steps: &mut [usize],
    i: usize,
    window: usize,
) -> usize
    requires { Families table.now first.now follow.now }
    ensures { 0 < result → Yields (held table.now) i (string window) (told steps.new 0 result) }
{
    let mut items = [0usize; 1024];
    let found = machine::goes(table, first, follow, steps, &mut items, i, window);
    if yields(
        table,
        first,
        follow,
        steps,
        &mut items,
        found.count,
        found.depth,
        i,
        window,
    ) {
        return found.count;
    }
    0
}

// How what comes after construct i spells the window.
pub fn stops(
    table: &[u32],
    first: &[u64],
    follow: &[u64],
    steps: &mut [usize],
    i: usize,
    window: usize,
) -> usize
    requires { Families table.now first.now follow.now }
    ensures { 0 < result → YieldsAfter (held table.now) i (string window) (told steps.new 0 result) }
{
    let mut items = [0usize; 1024];
    let found = machine::stops(table, first, follow, steps, &mut items, i, window);
    if yields_after(
        table,
        first,
        follow,
        steps,
        &mut items,
        found.count,
        found.depth,
        i,
        window,
    ) {
        return found.count;
    }
    0
}

// How construct i takes no bits.
pub fn takes_nothing(table: &[u32], first: &[u64], steps: &mut [usize], i: usize) -> usize
    requires { FirstFamily table.now first.now }
    ensures { 0 < result → YieldsAlone (held table.now) i [] (told steps.new 0 result) }
{
    let mut items = [0usize; 1024];
    let found = machine::takes_nothing(table, first, first, steps, &mut items, i);
    if yields_alone(table, first, steps, &mut items, found.count, i) {
        return found.count;
    }
    0
}
