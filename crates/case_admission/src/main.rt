// Admits texts from standard input, each after a line with its length in bytes, and prints what the bench program prints of a grammar, with
// the window of a clash. Any input is taken: a line without a number counts as 0, and a length past the end as all that is there.
#![tactic(auto)]

use basis::TABLE_WORDS;
use std::io::Stdout;
use table_conflicts::Clash;
use text_admission::Admission;
use text_header::Class;

fn text(out: Stdout, bytes: &[u8]) {
    let _ = out.write_all(bytes);
}

fn number(out: Stdout, before: &[u8], n: usize) {
    text(out, before);
    let _ = out.print(n as u64);
}

fn show_clash(out: Stdout, clash: Clash) {
    match clash {
        Clash::None => {}
        Clash::Branches {
            window,
            first: _,
            second: _,
        } => number(out, b" window ", window),
        Clash::Passes { window } => number(out, b" window ", window),
    }
}

fn show(out: Stdout, answer: Admission) {
    match answer {
        Admission::Admitted { weight } => number(out, b"grammar 0 weight ", weight),
        Admission::Refused { number: n, place } => {
            number(out, b"grammar ", n);
            number(out, b" at ", place);
        }
        Admission::Conflict {
            place,
            construct: _,
            clash,
        } => {
            number(out, b"grammar 10 at ", place);
            show_clash(out, clash);
        }
    }
    text(out, b"\n");
}

fn admit(out: Stdout, text: &[u8], table: &mut [u32; TABLE_WORDS]) {
    show(out, admission_call::admit(text, &mut table[..]));
}

// The text that is the bytes from `start` to `end`, where they are there.
fn one(out: Stdout, bytes: &[u8], start: usize, end: usize, table: &mut [u32; TABLE_WORDS]) {
    if end < start {
        return;
    }
    if bytes.len() < end {
        return;
    }
    admit(out, &bytes[start..end], table);
}

// `len` further, but no further than the end.
fn further(bytes: &[u8], at: usize, len: usize) -> usize {
    if at < bytes.len() {
        if len <= bytes.len() - at {
            return at + len;
        }
    }
    bytes.len()
}

// The length that stands at `at`; 0 where there is none.
fn length_at(bytes: &[u8], at: usize) -> usize {
    if at < bytes.len() {
        return text_tokens::numbers::number_at(bytes, at) as usize;
    }
    0
}

// Past the LF after `at`, which is before the end.
fn line_after(bytes: &[u8], at: usize) -> usize {
    let end = text_header::spans::span(Class::Except(10), bytes, at);
    if end < bytes.len() {
        return end + 1;
    }
    bytes.len()
}

fn all(out: Stdout, bytes: &[u8], table: &mut [u32; TABLE_WORDS]) {
    let mut at = 0;
    for _ in 0..400000usize {
        if bytes.len() <= at {
            break;
        }
        let len = length_at(bytes, at);
        let start = line_after(bytes, at);
        at = further(bytes, start, len);
        one(out, bytes, start, at, table);
    }
}

fn main(rt: HostRuntime) {
    let out = rt.stdout();
    let mut buffer = [0u8; 400000];
    let mut table = [0u32; TABLE_WORDS];
    let n = reading::read_full(&mut rt.stdin(), &mut buffer);
    all(out, &buffer[..n], &mut table);
}
