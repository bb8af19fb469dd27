// Why the two sides of a clash both admit the window.
ghost use Rattle.std.specs.Prelude.{◌≡◌};
ghost use Rattle.report_chain_steps.specs.Told.{Families};
ghost use Rattle.report_clashes.specs.Quoted.{part_of};

use report_chain_checks::chains as checked;
use report_listing::chains;
use report_listing::places::{part_at, place_of};
use report_measures::counts::varies;
use report_measures::lengths::{is_signed, width_of};
use report_measures::starts;
use report_places::{Located, Query, locate};
use report_quoting::quoting::Part;
use report_quoting::windows;
use report_wording::writing::say;
use std::io::Stdout;
use table_conflicts::Clash;

// An alternative that is a branch stands in parentheses.
#[tactic(auto, unfolding(crate::specs::Quoted::part_of))]
fn part_of(kind: usize) -> Part
    ensures { result ≡ part_of kind }
{
    if kind == 1 { Part::Whole } else { Part::Branch }
}

// A branch, with its place.
pub fn part(out: Stdout, grammar: &[u8], construct: usize) {
    match locate(grammar, Query::Construct(construct)) {
        Located::Construct { place, kind, .. } => part_at(out, grammar, place, part_of(kind)),
        _ => {}
    }
}

// A field whose bits are all that there is to be told of it: of a sint the value is told too.
fn is_told(table: &[u32], construct: usize) -> bool {
    !is_signed(table, construct) && !varies(table, construct)
}

// A branch that is a field needs no further word.
fn is_plain(table: &[u32], construct: usize, count: usize) -> bool {
    count == 1 && 0 < width_of(table, construct) && is_told(table, construct)
}

// How construct i, and what comes after it, admits the window.
fn goes(
    out: Stdout,
    grammar: &[u8],
    table: &[u32],
    first: &[u64],
    follow: &[u64],
    construct: usize,
    window: usize,
)
    requires { Families table.now first.now follow.now }
{
    let mut steps = [0usize; 3072];
    let count = checked::goes(table, first, follow, &mut steps, construct, window);
    if !is_plain(table, construct, count) {
        chains::listed(out, grammar, table, &steps, count);
    }
}

// Whether a variable is on the way.
fn goes_free(table: &[u32], first: &[u64], follow: &[u64], construct: usize, window: usize) -> bool
    requires { Families table.now first.now follow.now }
{
    let mut steps = [0usize; 3072];
    let count = checked::goes(table, first, follow, &mut steps, construct, window);
    chains::free(table, &steps, count)
}

fn stops(
    out: Stdout,
    grammar: &[u8],
    table: &[u32],
    first: &[u64],
    follow: &[u64],
    construct: usize,
    window: usize,
)
    requires { Families table.now first.now follow.now }
{
    let mut steps = [0usize; 3072];
    let count = checked::stops(table, first, follow, &mut steps, construct, window);
    chains::listed(out, grammar, table, &steps, count);
}

fn stops_free(table: &[u32], first: &[u64], follow: &[u64], construct: usize, window: usize) -> bool
    requires { Families table.now first.now follow.now }
{
    let mut steps = [0usize; 3072];
    let count = checked::stops(table, first, follow, &mut steps, construct, window);
    chains::free(table, &steps, count)
}

// With a variable on the way the bits may say it after all.
fn cannot(out: Stdout, free: bool) {
    if free {
        say(
            out,
            b"Here the check cannot tell;\nit does not know the values of variables",
        );
    } else {
        say(out, b"Here they cannot");
    }
}

// With a variable on the way the two need not admit it in any frame; they count as if they did.
fn both_admit(out: Stdout, free: bool) {
    if free {
        say(out, b"So both are taken to admit");
    } else {
        say(out, b"Both admit");
    }
}

fn turns_admit(out: Stdout, free: bool) {
    if free {
        say(out, b"So going on and stopping are both taken to admit");
    } else {
        say(out, b"Going on and stopping both admit");
    }
}

fn branches(
    out: Stdout,
    grammar: &[u8],
    table: &[u32],
    first: &[u64],
    follow: &[u64],
    construct: usize,
    window: usize,
    one: usize,
    other: usize,
)
    requires { Families table.now first.now follow.now }
{
    let free = goes_free(table, first, follow, one, window)
        || goes_free(table, first, follow, other, window);
    say(
        out,
        b"The next bits of a frame must say which branch of an alternative is\n",
    );
    say(out, b"taken. ");
    cannot(out, free);
    say(out, b":\n");
    part(out, grammar, one);
    goes(out, grammar, table, first, follow, one, window);
    part(out, grammar, other);
    goes(out, grammar, table, first, follow, other, window);
    both_admit(out, free);
    windows::window(out, window, starts::start_of(table, one));
}

pub fn next(i: usize) -> usize {
    i.saturating_add(1).min(256)
}

fn passes(
    out: Stdout,
    grammar: &[u8],
    table: &[u32],
    first: &[u64],
    follow: &[u64],
    construct: usize,
    window: usize,
)
    requires { Families table.now first.now follow.now }
{
    let free = goes_free(table, first, follow, next(construct), window)
        || stops_free(table, first, follow, construct, window);
    say(
        out,
        b"Before each pass of ?, *, + or {2~4} the next 8 bits must say whether one\n",
    );
    say(out, b"more comes ({4} and {n} are not asked). ");
    cannot(out, free);
    say(out, b". A pass of\n");
    part_at(out, grammar, place_of(grammar, construct), Part::Member);
    goes(out, grammar, table, first, follow, next(construct), window);
    say(out, b"may come, or what comes after it:\n");
    stops(out, grammar, table, first, follow, construct, window);
    turns_admit(out, free);
    windows::window(out, window, starts::turn_of(table, construct));
}

pub fn explained(
    out: Stdout,
    grammar: &[u8],
    table: &[u32],
    first: &[u64],
    follow: &[u64],
    construct: usize,
    clash: Clash,
)
    requires { Families table.now first.now follow.now }
{
    match clash {
        Clash::None => {}
        Clash::Branches {
            window,
            first: one,
            second,
        } => branches(
            out, grammar, table, first, follow, construct, window, one, second,
        ),
        Clash::Passes { window } => passes(out, grammar, table, first, follow, construct, window),
    }
}
