// Refusal 13: the items of a field's set, and why none has a value that the field has.
use crate::calculations::{begins, worked_out};
use report_quoting::quoting::{Part, end_of, quote};
use report_wording::lines;
use report_wording::writing::{number, say};
use std::io::Stdout;
use term_integers::{at_most, magnitude, negative};
use text_header::spans::byte_at;
use text_parsing::terminals::look;

// An item `a` or `a~b`, where each end may be left out. `single`: one number.
#[derive(Clone, Copy)]
struct Item {
    single: bool,
    low: Option<i64>,
    high: Option<i64>,
}

// The values of a width: from -`below` to `most`.
#[derive(Clone, Copy)]
struct Ends {
    below: usize,
    most: usize,
}

// The place behind a number of tokens.
fn behind(grammar: &[u8], at: usize, count: usize) -> usize {
    let mut here = at;
    for _n in 0..count {
        here = look(grammar, here).end;
    }
    here
}

// The set of the field at a place: behind `uint(8,`, or behind `uint(8, var(n,`.
fn set_of(grammar: &[u8], at: usize) -> usize {
    let here = behind(grammar, at, 4);
    if look(grammar, here).code == 8 {
        return behind(grammar, here, 4);
    }
    here
}

fn width_of(grammar: &[u8], at: usize) -> usize {
    look(grammar, behind(grammar, at, 2)).value
}

// Whether the field at a place is a sint.
fn is_signed(grammar: &[u8], at: usize) -> bool {
    byte_at(grammar, at) == 115
}

// The largest number of so many bits.
fn largest(bits: usize) -> usize {
    if bits < 64 {
        return lines::saturating_sub(term_integers::power(bits as u64) as usize, 1);
    }
    18446744073709551615
}

// Of a sint all bits but one are a value's size.
fn ends_of(signed: bool, width: usize) -> Ends {
    if signed {
        let most = largest(lines::saturating_sub(width, 1));
        return Ends {
            below: lines::saturating_next(most),
            most,
        };
    }
    Ends {
        below: 0,
        most: largest(width),
    }
}

// A range whose lower end is read, at the token behind its `~`.
fn range(grammar: &[u8], low: Option<i64>, at: usize) -> Item {
    let high = if begins(look(grammar, at).code) {
        Some(worked_out(grammar, at).value)
    } else {
        None
    };
    Item {
        single: false,
        low,
        high,
    }
}

fn item_at(grammar: &[u8], at: usize) -> Item {
    let first = look(grammar, at);
    if first.code == 126 {
        return range(grammar, None, first.end);
    }
    let worked = worked_out(grammar, at);
    let low = Some(worked.value);
    let next = look(grammar, worked.end);
    if next.code == 126 {
        return range(grammar, low, next.end);
    }
    Item {
        single: true,
        low,
        high: low,
    }
}

fn value(out: Stdout, before: &[u8], n: i64) {
    say(out, before);
    if negative(n) {
        say(out, b"-");
    }
    number(out, b"", magnitude(n) as usize);
}

fn least(out: Stdout, before: &[u8], ends: Ends) {
    say(out, before);
    if 0 < ends.below {
        say(out, b"-");
    }
    number(out, b"", ends.below);
}

fn below(out: Stdout, single: bool, high: i64, ends: Ends) {
    if single {
        value(out, b"is ", high);
    } else {
        value(out, b"ends at ", high);
    }
    least(out, b", below ", ends);
    say(out, b"\n");
}

fn above(out: Stdout, single: bool, low: i64, ends: Ends) {
    if single {
        value(out, b"is ", low);
    } else {
        value(out, b"begins at ", low);
    }
    number(out, b", above ", ends.most);
    say(out, b"\n");
}

fn turned(out: Stdout, low: i64, high: i64) {
    value(out, b"begins at ", low);
    value(out, b" and ends at ", high);
    say(out, b": its first value comes after its last\n");
}

fn past(n: i64, ends: Ends) -> bool {
    !negative(n) && ends.most < magnitude(n) as usize
}

fn before(n: i64, ends: Ends) -> bool {
    negative(n) && ends.below < magnitude(n) as usize
}

// Why the item has no value left.
fn reason(out: Stdout, item: Item, ends: Ends) {
    if let (Some(low), Some(high)) = (item.low, item.high)
        && !at_most(low, high)
    {
        turned(out, low, high);
        return;
    }
    if let Some(high) = item.high
        && before(high, ends)
    {
        below(out, item.single, high, ends);
        return;
    }
    if let Some(low) = item.low
        && past(low, ends)
    {
        above(out, item.single, low, ends);
        return;
    }
    least(out, b"its values from ", ends);
    number(out, b" to ", ends.most);
    say(out, b" are taken away by what stands after !\n");
}

fn line(out: Stdout, grammar: &[u8], at: usize, ends: Ends) {
    say(out, b"    ");
    lines::place(out, grammar, at);
    say(out, b":  ");
    quote(out, grammar, at, Part::Branch);
    say(out, b"\n        ");
    reason(out, item_at(grammar, at), ends);
}

// Each item with what is taken away from it, at most twenty.
fn items(out: Stdout, grammar: &[u8], set: usize, ends: Ends) {
    let mut at = set;
    for _n in 0..20usize {
        line(out, grammar, look(grammar, at).start, ends);
        let next = look(grammar, end_of(grammar, at, Part::Branch));
        if next.code != 124 {
            return;
        }
        at = next.end;
    }
    say(out, b"    and more\n");
}

fn change(out: Stdout, ends: Ends) {
    least(out, b"What to change: let the set have a value from ", ends);
    number(out, b" to ", ends.most);
    say(out, b".\n");
    say(
        out,
        b"From 1 to 5 is written 1~5, with the smaller end first; 1-5 is a calculation.\n",
    );
    say(
        out,
        b"A larger value needs a wider field, of at most 64 bits: that changes the frames.\n",
    );
    if ends.below == 0 {
        say(
            out,
            b"A value below 0 needs a sint, which reads the same bits with a sign.\n",
        );
    }
    say(
        out,
        b"A branch or a case that no frame is to take can be left out.\n",
    );
}

fn kind(out: Stdout, signed: bool) {
    if signed {
        say(out, b"This field has no value: a sint");
    } else {
        say(out, b"This field has no value: a uint");
    }
}

// The field at a place.
pub fn none_left(out: Stdout, grammar: &[u8], at: usize) {
    let signed = is_signed(grammar, at);
    let width = width_of(grammar, at);
    let ends = ends_of(signed, width);
    kind(out, signed);
    number(out, b" of width ", width);
    least(out, b" has the values from ", ends);
    number(out, b" to ", ends.most);
    say(out, b",\nand its set has none of them:\n");
    items(out, grammar, set_of(grammar, at), ends);
    change(out, ends);
}
