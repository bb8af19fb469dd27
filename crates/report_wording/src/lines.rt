// Lines and columns, from 1; columns count bytes.
ghost use Rattle.std.specs.Prelude.{◌≡◌, ◌+◌, ◌-◌, min, max};
ghost use Rattle.report_wording.specs.Lines.{lines_before, line_start, line_end};

use crate::writing::{Style, bytes, number, say};
use std::io::Stdout;
use text_header::Class;
use text_header::spans::{byte_at, span};

// A line: how many end before it, and the place of its first byte.
#[derive(Clone, Copy)]
struct Line {
    before: usize,
    start: usize,
}

// a - b, where it is not below 0.
pub fn saturating_sub(a: usize, b: usize) -> usize
    ensures { result ≡ a - b }
{
    a.saturating_sub(b)
}

// n + 1, where there is such a number.
pub fn saturating_next(n: usize) -> usize
    ensures { result ≡ min (n + 1) 18446744073709551615 }
{
    n.saturating_add(1)
}

// At most `most` bytes from a place up to another.
pub fn cut(from: usize, to: usize, most: usize) -> usize
    ensures { result ≡ min (from + most) to }
{
    from.saturating_add(most).min(to)
}

// The line that a place is in.
fn line_of(grammar: &[u8], at: usize) -> Line
    ensures { (result.before ≡ lines_before grammar.now at) × (result.start ≡ line_start grammar.now at) }
{
    let mut before = 0;
    let mut start = 0;
    for i in 0..at {
        if byte_at(grammar, i) == b'\n' {
            before += 1;
            start = i + 1;
        }
    }
    Line { before, start }
}

// Where the line ends, without its LF or CR LF.
fn line_end(grammar: &[u8], at: usize) -> usize
    ensures { result ≡ line_end grammar.now at }
{
    let end = span(Class::Except(10), grammar, at);
    let last = end.saturating_sub(1);
    if byte_at(grammar, last) == b'\r' {
        last
    } else {
        end
    }
}

// `line L, column C`.
pub fn place(out: Stdout, grammar: &[u8], at: usize) {
    let Line { before, start } = line_of(grammar, at);
    number(out, b"line ", before.saturating_add(1));
    number(
        out,
        b", column ",
        at.saturating_sub(start).saturating_add(1),
    );
}

fn left_edge(out: Stdout, cut: bool) {
    if cut {
        say(out, b"... ");
    } else {
        say(out, b"    ");
    }
}

fn right_edge(out: Stdout, cut: bool) {
    if cut {
        say(out, b" ...\n    ");
    } else {
        say(out, b"\n    ");
    }
}

// A long line is shown from 60 bytes before the place.
fn from_of(start: usize, at: usize) -> usize
    ensures { result ≡ max start (at - 60) }
{
    start.max(at.saturating_sub(60))
}

// The line, with a mark under the place.
fn marked(out: Stdout, grammar: &[u8], at: usize) {
    let start = line_of(grammar, at).start;
    let end = line_end(grammar, at);
    let from = from_of(start, at);
    let to = cut(from, end, 100);
    left_edge(out, start < from);
    bytes(out, Style::Line, grammar, from, to);
    right_edge(out, to < end);
    bytes(out, Style::Under, grammar, from, at);
    say(out, b"^\n");
}

// A heading `line L, column C:`, the line and the mark.
pub fn shown(out: Stdout, grammar: &[u8], at: usize) {
    place(out, grammar, at);
    say(out, b":\n");
    marked(out, grammar, at);
}
