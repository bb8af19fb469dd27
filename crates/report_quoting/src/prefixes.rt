// Branches that begin with literals, written anew with what all of them begin with in front.
use crate::quoting::{Part, end_of};
use report_wording::writing::{Style, bytes, say};
use std::io::Stdout;
use text_header::spans::byte_at;
use text_parsing::terminals::look;

// A byte of a literal that stands for itself.
fn plain(b: u8) -> bool {
    b' ' <= b && !matches!(b, b'\\' | b'"' | b'\'')
}

// The place of a literal's character n, behind its quote.
fn character(at: usize, n: usize) -> usize {
    at.saturating_add(1).saturating_add(n)
}

fn character_at(grammar: &[u8], at: usize, n: usize) -> u8 {
    byte_at(grammar, character(at, n))
}

// How many characters two literals begin with alike, up to 32.
pub fn shared(grammar: &[u8], first: usize, second: usize) -> usize {
    for n in 0..32 {
        let b = character_at(grammar, first, n);
        if !plain(b) || b != character_at(grammar, second, n) {
            return n;
        }
    }
    32
}

// What is left of a branch: its literal without the first n characters, and the rest of it.
fn rest(out: Stdout, grammar: &[u8], at: usize, n: usize) {
    bytes(out, Style::Line, grammar, at, at.saturating_add(1));
    bytes(
        out,
        Style::Line,
        grammar,
        character(at, n),
        end_of(grammar, at, Part::Branch),
    );
}

// Something of the literal is left after n characters.
fn longer(grammar: &[u8], at: usize, n: usize) -> bool {
    character(at, n).saturating_add(1) < look(grammar, at).end
}

// No comment and no line's end.
fn in_line(part: &[u8]) -> bool {
    part.iter().all(|&b| b' ' <= b && b != b'#')
}

fn short(grammar: &[u8], at: usize) -> bool {
    let end = end_of(grammar, at, Part::Branch);
    end < at.saturating_add(60) && in_line(grammar.get(at..end).unwrap_or(&[]))
}

// The literal goes on with a character that stands for itself: an escape may be the same character as the other's.
fn goes_on(grammar: &[u8], at: usize, n: usize) -> bool {
    longer(grammar, at, n) && plain(character_at(grammar, at, n)) && short(grammar, at)
}

// The branch is its literal.
fn alone(grammar: &[u8], at: usize) -> bool {
    end_of(grammar, at, Part::Branch) <= look(grammar, at).end
}

// One branch is all that the two share, and the other goes on.
pub fn is_prefix(grammar: &[u8], whole: usize, other: usize, n: usize) -> bool {
    0 < n
        && !longer(grammar, whole, n)
        && alone(grammar, whole)
        && longer(grammar, other, n)
        && short(grammar, other)
}

// What is in front, as a literal.
fn front(out: Stdout, grammar: &[u8], at: usize, n: usize) {
    say(out, b"\"");
    bytes(
        out,
        Style::Line,
        grammar,
        character(at, 0),
        character(at, n),
    );
    say(out, b"\" & ");
}

// One branch is the first n characters of the other: the rest may be left out.
pub fn optional(out: Stdout, grammar: &[u8], other: usize, n: usize) {
    front(out, grammar, other, n);
    if alone(grammar, other) {
        rest(out, grammar, other, n);
        say(out, b"?\n");
        return;
    }
    say(out, b"(");
    rest(out, grammar, other, n);
    say(out, b")?\n");
}

// How many characters all branches begin with alike.
fn all_share(grammar: &[u8], places: &[usize]) -> usize {
    let mut n = 32;
    if let Some((first, others)) = places.split_first() {
        for other in others {
            n = n.min(shared(grammar, *first, *other));
        }
    }
    n
}

// Whether each goes on after n characters.
fn all_go_on(grammar: &[u8], places: &[usize], n: usize) -> bool {
    places.iter().all(|&at| goes_on(grammar, at, n))
}

// Whether none of the others goes on as the branch at a place does.
fn apart(grammar: &[u8], at: usize, others: &[usize], n: usize) -> bool {
    let b = character_at(grammar, at, n);
    others
        .iter()
        .all(|&other| character_at(grammar, other, n) != b)
}

fn all_apart(grammar: &[u8], places: &[usize], n: usize) -> bool {
    for (k, at) in places.iter().enumerate() {
        if !apart(grammar, *at, &places[k + 1..], n) {
            return false;
        }
    }
    true
}

fn rests(out: Stdout, grammar: &[u8], places: &[usize], n: usize) {
    for (k, at) in places.iter().enumerate() {
        if 0 < k {
            say(out, b" | ");
        }
        rest(out, grammar, *at, n);
    }
}

// Whether the branches could be written so, the first n characters of all in front: all go on after them, each with another character. Six
// are as many as a reader takes in.
pub fn fit(grammar: &[u8], places: &[usize]) -> bool {
    let n = all_share(grammar, places);
    0 < n && places.len() <= 6 && all_go_on(grammar, places, n) && all_apart(grammar, places, n)
}

pub fn written(out: Stdout, grammar: &[u8], places: &[usize]) {
    let n = all_share(grammar, places);
    let Some(first) = places.first() else {
        return;
    };
    front(out, grammar, *first, n);
    say(out, b"(");
    rests(out, grammar, places, n);
    say(out, b")\n");
}
