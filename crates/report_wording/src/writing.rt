// Writing to standard output.
ghost use Rattle.std.specs.Prelude.{◌≡◌};
ghost use Rattle.report_wording.specs.Shown.{visible as visibleOf, in_line, under as underOf, styled as styledOf};

use std::io::Stdout;
use text_header::bytes::printable;
use text_header::spans::byte_at;

// How the bytes of a grammar are written: as they stand, tabs too; or as the blanks under them.
#[derive(Clone, Copy)]
pub enum Style {
    Line,
    Under,
}

pub fn say(out: Stdout, bytes: &[u8]) {
    let _ = out.write_all(bytes);
}

pub fn number(out: Stdout, before: &[u8], n: usize) {
    say(out, before);
    let _ = out.print(n as u64);
}

pub fn hexadecimal(out: Stdout, before: &[u8], n: usize, digits: usize) {
    say(out, before);
    let value = n as u64;
    let _ = print!(out; "{value:0digits$x}");
}

// A dot for what cannot be shown.
#[tactic(auto, unfolding(crate::specs::Shown::visible))]
fn visible(b: u8) -> u8
    ensures { result ≡ visibleOf b }
{
    if printable(b) { b } else { b'.' }
}

#[tactic(auto, unfolding(crate::specs::Shown::in_line))]
fn line(b: u8) -> u8
    ensures { result ≡ in_line b }
{
    if b == b'\t' { b } else { visible(b) }
}

#[tactic(auto, unfolding(crate::specs::Shown::under))]
fn under(b: u8) -> u8
    ensures { result ≡ underOf b }
{
    if b == b'\t' { b } else { b' ' }
}

#[tactic(auto, unfolding(crate::specs::Shown::styled))]
fn styled(style: Style, b: u8) -> u8
    ensures { result ≡ styledOf style b }
{
    match style {
        Style::Line => line(b),
        Style::Under => under(b),
    }
}

fn put(out: Stdout, b: u8) {
    say(out, &[b]);
}

// The bytes of a grammar from one place up to another.
pub fn bytes(out: Stdout, style: Style, grammar: &[u8], from: usize, to: usize) {
    for i in from..to {
        put(out, styled(style, byte_at(grammar, i)));
    }
}
