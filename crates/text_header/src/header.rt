// The header (refusal 3).
ghost use Rattle.std.specs.Prelude.{◌≡◌, ◌≤◌, length, drop};
ghost use Rattle.text_header.specs.Header.{content as contentOf, is_first_line, is_header_line, lines, header_lines_of, header_of};

use crate::bytes::blank;
use crate::spans::{begins, byte_at, span, spells};
use crate::{Class, Heading};

// A line before its LF, without a CR at its end.
pub fn content(line: &[u8]) -> &[u8]
    ensures { result.now ≡ contentOf line.now }
{
    let n = line.len();
    if n == 0 {
        return line;
    }
    let last = n - 1;
    if line[last] == b'\r' {
        return &line[..last];
    }
    line
}

#[tactic(auto, unfolding(crate::specs::Header::is_first_line))]
fn first_line(line: &[u8]) -> bool
    ensures { result ≡ is_first_line line.now }
{
    if begins(false, b"dogma_v1", line) {
        let end = span(Class::Blank, line, 8);
        return 9 <= end && spells(true, b"utf-8", &line[end..]);
    }
    false
}

#[tactic(auto, unfolding(crate::specs::Header::is_header_line))]
fn header_line(line: &[u8]) -> bool
    ensures { result ≡ is_header_line line.now }
{
    let equals = span(Class::Except(b'='), line, 2);
    byte_at(line, 0) == b'-'
        && blank(byte_at(line, 1))
        && 3 <= equals
        && equals + 1 < line.len()
        && span(Class::Header, line, 0) == line.len()
}

// The header lines from `at` on.
fn header_lines(text: &[u8], from: usize) -> Heading
    requires { from ≤ length text.now }
    ensures { result ≡ header_lines_of from (lines (drop from text.now)) }
{
    let mut at = from;
    while at < text.len() {
        let end = span(Class::Except(b'\n'), text, at);
        if text.len() <= end {
            return Heading::Wrong(at);
        }
        let line = content(&text[at..end]);
        if line.len() == 0 {
            return Heading::Rules(end + 1);
        }
        if header_line(line) {
            at = end + 1;
        } else {
            return Heading::Wrong(at);
        }
    }
    Heading::Wrong(at)
}

// Where the rules begin, or the place of refusal 3.
pub fn header(text: &[u8]) -> Heading
    ensures { result ≡ header_of text.now }
{
    let end = span(Class::Except(b'\n'), text, 0);
    if text.len() <= end {
        return Heading::Wrong(0);
    }
    if first_line(content(&text[..end])) {
        return header_lines(text, end + 1);
    }
    Heading::Wrong(0)
}
