// The lookahead sets on the cases that document 01 singles out. A set is written as its eight words, word 0 first.
#![tactic(auto)]

use lookahead::{Set, passes, spans};
use std::io::Stdout;

fn line(out: Stdout, text: &[u8]) {
    let _ = out.write_all(text);
}

fn say(out: Stdout, text: &[u8], n: usize) {
    line(out, text);
    line(out, b" ");
    let _ = out.print(n as u64);
    line(out, b"\n");
}

fn ask(out: Stdout, text: &[u8], answer: bool) {
    line(out, text);
    if answer {
        line(out, b" yes\n");
    } else {
        line(out, b" no\n");
    }
}

fn show(out: Stdout, text: &[u8], set: Set) {
    let words = set.words;
    line(out, text);
    for i in 0..8 {
        line(out, b" ");
        let word = words[i];
        let _ = print!(out; "{word:x}");
    }
    line(out, b"\n");
}

fn least(out: Stdout, text: &[u8], a: Set, b: Set) {
    match lookahead::least_common(a, b) {
        None => {
            line(out, text);
            line(out, b" none\n");
        }
        Some(n) => say(out, text, n),
    }
}

fn full() -> Set {
    let all = 0xffff_ffff_ffff_ffff;
    Set {
        words: [0xffff_ffff_ffff_fffe, all, all, all, all, all, all, all],
    }
}

fn field(value: u32, width: u32) -> Set {
    lookahead::single(lookahead::number_of(value, width))
}

fn numbers(out: Stdout) {
    say(
        out,
        b"number of the empty string",
        lookahead::number_of(0, 0),
    );
    say(out, b"number of 0010", lookahead::number_of(2, 4));
    say(out, b"number of byte 41", lookahead::number_of(0x41, 8));
    say(
        out,
        b"number of 4142, cut",
        lookahead::number_of(0x4142, 16),
    );
}

// K5: "AB" and "AC" share their first byte.
fn conflicts(out: Stdout) {
    least(
        out,
        b"least common of AB and AC",
        field(0x4142, 16),
        field(0x4143, 16),
    );
    least(
        out,
        b"least common of AB and BC",
        field(0x4142, 16),
        field(0x4243, 16),
    );
    let some = lookahead::union(field(2, 4), field(0x41, 8));
    least(out, b"least common of 0010, byte 41 and all", some, full());
    least(out, b"least common of all and all", full(), full());
    least(
        out,
        b"least common of all and none",
        full(),
        lookahead::empty(),
    );
}

fn joins(out: Stdout) {
    let none = lookahead::empty();
    let unit = lookahead::single(1);
    show(out, b"none joined with all:", lookahead::join(none, full()));
    show(out, b"all joined with none:", lookahead::join(full(), none));
    show(
        out,
        b"empty string joined with all:",
        lookahead::join(unit, full()),
    );
    show(
        out,
        b"all joined with empty string:",
        lookahead::join(full(), unit),
    );
    show(
        out,
        b"all joined with all:",
        lookahead::join(full(), full()),
    );
    show(
        out,
        b"0010 joined with 0010:",
        lookahead::join(field(2, 4), field(2, 4)),
    );
    show(out, b"byte 22:", field(0x22, 8));
    show(
        out,
        b"byte 41 joined with all:",
        lookahead::join(field(0x41, 8), full()),
    );
    show(
        out,
        b"0010 joined with byte 41, cut:",
        lookahead::join(field(2, 4), field(0x41, 8)),
    );
    show(out, b"byte 24:", field(0x24, 8));
    show(
        out,
        b"0010 joined with all:",
        lookahead::join(field(2, 4), full()),
    );
}

// Bit 0 of word 0 names no string.
fn tests(out: Stdout) {
    let stray = Set {
        words: [1, 0, 0, 0, 0, 0, 0, 0],
    };
    ask(
        out,
        b"no strings where only the unused bit is set:",
        lookahead::is_empty(stray),
    );
    ask(
        out,
        b"same words as the empty set:",
        lookahead::equal(stray, lookahead::empty()),
    );
    ask(
        out,
        b"the same after a union:",
        lookahead::equal(lookahead::union(stray, stray), lookahead::empty()),
    );
    ask(
        out,
        b"empty string in all:",
        lookahead::has_empty_string(full()),
    );
    ask(
        out,
        b"empty string in byte 41:",
        lookahead::has_empty_string(field(0x41, 8)),
    );
    ask(out, b"18 in 0010:", lookahead::contains(field(2, 4), 18));
    ask(out, b"0 in all:", lookahead::contains(full(), 0));
    ask(out, b"512 in all:", lookahead::contains(full(), 512));
    ask(
        out,
        b"all joined with all is all:",
        lookahead::equal(lookahead::join(full(), full()), full()),
    );
}

fn ranges(out: Stdout) {
    let a = lookahead::number_of(0x61, 8);
    let z = lookahead::number_of(0x7a, 8);
    show(out, b"a to z:", spans::span(a, z));
    show(out, b"strings of 4 bits:", spans::span(16, 31));
    ask(
        out,
        b"strings of any number are all:",
        lookahead::equal(spans::span(0, 4000), full()),
    );
    ask(
        out,
        b"no string from 5 to 4:",
        lookahead::is_empty(spans::span(5, 4)),
    );
}

// Past 8 passes nothing is added, with or without the empty string in the body.
fn repetitions(out: Stdout) {
    let body = field(1, 4);
    let optional = lookahead::union(lookahead::single(1), field(1, 1));
    show(out, b"0001, no pass or more:", passes::at_least(body, 0));
    show(out, b"0001, one pass or two:", passes::within(body, 1, 2));
    show(
        out,
        b"1 or nothing, 8 passes:",
        passes::exactly(optional, 8),
    );
    ask(
        out,
        b"100 passes of it are 8:",
        lookahead::equal(passes::exactly(optional, 100), passes::exactly(optional, 8)),
    );
    ask(
        out,
        b"0001, 9 to 20 passes are 8:",
        lookahead::equal(passes::within(body, 9, 20), passes::exactly(body, 8)),
    );
    ask(
        out,
        b"from 3 to 2 passes is nothing:",
        lookahead::is_empty(passes::within(body, 3, 2)),
    );
}

fn main(rt: HostRuntime) {
    let out = rt.stdout();
    numbers(out);
    conflicts(out);
    ranges(out);
    joins(out);
    repetitions(out);
    tests(out);
}
