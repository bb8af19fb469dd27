// An example of a clash: a frame's beginning at which both sides fit. It is printed only where it is certain: both chains are whole, no variable, no
// switch and no eod before something else is in the grammar, no further pass is on the way, and where a chain leaves a rule no rule is used twice.
ghost use Rattle.std.specs.Prelude.{◌<◌};
ghost use Rattle.report_chain_steps.specs.Told.{Families};

use crate::sides::next;
use report_chain_checks::chains as checked;
use report_chains::strings::bits;
use report_examples::plain::{plain, used_once};
use report_examples::prefix::up_to;
use report_listing::chains::step_at;
use report_measures::words::number_at;
use report_quoting::windows::binary;
use report_wording::writing::{hexadecimal, number, say};
use std::io::Stdout;
use table_conflicts::Clash;

fn has(steps: &[usize], count: usize, tag: usize) -> bool {
    (0..count).any(|k| step_at(steps, k).tag == tag)
}

// How many bits of the window the fields have.
fn total(steps: &[usize], count: usize) -> usize {
    let mut n: usize = 0;
    for k in 0..count {
        let step = step_at(steps, k);
        if step.tag == 1 {
            n = n.saturating_add(bits(step.value));
        }
    }
    n
}

fn stays(table: &[u32], steps: &[usize], count: usize) -> bool {
    !has(steps, count, 6) && (!has(steps, count, 5) || used_once(table))
}

// A chain that spells a window of 8 bits.
fn certain(table: &[u32], steps: &[usize], count: usize) -> bool {
    total(steps, count) == 8 && stays(table, steps, count)
}

fn goes(table: &[u32], first: &[u64], follow: &[u64], i: usize, window: usize) -> bool
    requires { Families table.now first.now follow.now }
{
    let mut steps = [0usize; 3072];
    let count = checked::goes(table, first, follow, &mut steps, i, window);
    certain(table, &steps, count)
}

fn stops(table: &[u32], first: &[u64], follow: &[u64], i: usize, window: usize) -> bool
    requires { Families table.now first.now follow.now }
{
    let mut steps = [0usize; 3072];
    let count = checked::stops(table, first, follow, &mut steps, i, window);
    certain(table, &steps, count)
}

fn one(bits: &[usize], k: usize) -> usize
    ensures { result < 2 }
{
    number_at(bits, k) % 2
}

// Bits 8 k to 8 k + 7.
fn byte(bits: &[usize], k: usize) -> usize {
    if 24 < k {
        return 0;
    }
    let at = 8 * k;
    let high = 8 * one(bits, at)
        + 4 * one(bits, at + 1)
        + 2 * one(bits, at + 2)
        + one(bits, at + 3);
    let low = 8 * one(bits, at + 4)
        + 4 * one(bits, at + 5)
        + 2 * one(bits, at + 6)
        + one(bits, at + 7);
    16 * high + low
}

fn bytes(out: Stdout, bits: &[usize], count: usize) {
    for k in 0..count {
        hexadecimal(out, b" ", byte(bits, k), 2);
    }
}

fn digits(out: Stdout, bits: &[usize], count: usize) {
    for k in 0..count {
        number(out, b"", one(bits, k));
    }
}

// Whole bytes before it.
fn aligned(out: Stdout, bits: &[usize], count: usize, window: usize) {
    say(out, b"For example, a frame that begins with");
    bytes(out, bits, count / 8);
    hexadecimal(out, b" ", window % 256, 2);
    say(out, b": after");
    bytes(out, bits, count / 8);
    hexadecimal(out, b", ", window % 256, 2);
    say(out, b" fits both.\n");
}

fn unaligned(out: Stdout, bits: &[usize], count: usize, window: usize) {
    say(out, b"For example, a frame that begins with the bits ");
    digits(out, bits, count);
    say(out, b" ");
    binary(out, window, 8);
    number(out, b": after the first ", count);
    say(out, b",\n");
    binary(out, window, 8);
    say(out, b" fits both.\n");
}

// With nothing before it the window says it all.
fn shown(out: Stdout, bits: &[usize], count: usize, window: usize) {
    if count == 0 || 192 < count {
        return;
    }
    if count % 8 == 0 {
        aligned(out, bits, count, window);
    } else {
        unaligned(out, bits, count, window);
    }
}

fn at(out: Stdout, table: &[u32], follow: &[u64], construct: usize, window: usize) {
    if plain(table, follow) {
        let mut bits = [0usize; 256];
        if let Some(count) = up_to(table, construct, &mut bits) {
            shown(out, &bits, count, window);
        }
    }
}

fn branches(
    out: Stdout,
    table: &[u32],
    first: &[u64],
    follow: &[u64],
    construct: usize,
    window: usize,
    one: usize,
    other: usize,
)
    requires { Families table.now first.now follow.now }
{
    if goes(table, first, follow, one, window) && goes(table, first, follow, other, window) {
        at(out, table, follow, construct, window);
    }
}

fn passes(
    out: Stdout,
    table: &[u32],
    first: &[u64],
    follow: &[u64],
    construct: usize,
    window: usize,
)
    requires { Families table.now first.now follow.now }
{
    if goes(table, first, follow, next(construct), window)
        && stops(table, first, follow, construct, window)
    {
        at(out, table, follow, construct, window);
    }
}

pub fn told(
    out: Stdout,
    table: &[u32],
    first: &[u64],
    follow: &[u64],
    construct: usize,
    clash: Clash,
)
    requires { Families table.now first.now follow.now }
{
    match clash {
        Clash::None => {}
        Clash::Branches {
            window,
            first: one,
            second,
        } => branches(out, table, first, follow, construct, window, one, second),
        Clash::Passes { window } => passes(out, table, first, follow, construct, window),
    }
}
