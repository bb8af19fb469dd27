// An admitted grammar: its numbers, and its fields in order.
ghost use Rattle.std.specs.Prelude.{◌≡◌};
ghost use Rattle.explain.specs.Report.{is_field, bound_of};

use basis::{MAX_FRAME_BITS, MAX_WEIGHT};
use report_listing::sets;
use report_measures::starts::start_of;
use report_places::{Located, Query, locate};
use report_quoting::quoting::{Part, quote};
use report_wording::lines;
use report_wording::writing::{number, say};
use std::io::Stdout;

fn field_at(out: Stdout, grammar: &[u8], table: &[u32], construct: usize, at: usize) {
    number(out, b"    construct ", construct);
    say(out, b", ");
    lines::place(out, grammar, at);
    say(out, b":  ");
    quote(out, grammar, at, Part::Field);
    if start_of(table, construct) == 0 {
        say(out, b"  (never taken)");
    }
    say(out, b"\n");
}

// A literal, a range, a uint or a sint.
fn is_field(kind: usize) -> bool
    ensures { result ≡ is_field kind }
{
    kind == 6 || kind == 7 || kind == 8
}

fn field(out: Stdout, grammar: &[u8], table: &[u32], construct: usize) {
    match locate(grammar, Query::Construct(construct)) {
        Located::Construct { place, kind, .. } if is_field(kind) => {
            field_at(out, grammar, table, construct, place)
        }
        _ => {}
    }
}

fn constructs(grammar: &[u8]) -> usize {
    match locate(grammar, Query::Construct(0)) {
        Located::Construct { count, .. } => count,
        _ => 0,
    }
}

// The bits of the longest frame and one.
const BITS_AND_END: usize = MAX_FRAME_BITS + 1;

// The bound on the steps of a run is the weight times one more than the frame's bits.
#[tactic(auto, unfolding(crate::specs::Report::bound_of))]
fn steps(weight: usize) -> usize
    ensures { result ≡ bound_of weight }
{
    if weight <= MAX_WEIGHT {
        weight * BITS_AND_END
    } else {
        0
    }
}

fn bound(out: Stdout, weight: usize) {
    number(out, b"A frame of 1024 bytes takes at most ", steps(weight));
    number(out, b" steps (", weight);
    say(out, b" x 8193).\n");
}

pub fn admitted(out: Stdout, grammar: &[u8], weight: usize) {
    let count = constructs(grammar);
    number(out, b"admitted, weight ", weight);
    number(out, b", constructs ", count);
    say(out, b"\n");
    bound(out, weight);
    say(
        out,
        b"The fields in the text's order, with the numbers that a reading gives:\n",
    );
    let words = sets::encoded(grammar).words;
    for i in 0..count {
        field(out, grammar, &words, i);
    }
}
