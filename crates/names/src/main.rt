// Prints a C header with the names of a grammar's fields and variables: of the file that it is given, or of standard input.
#![tactic(auto)]

ghost use Rattle.std.specs.Prelude.{◌≤◌, length, IfSome};

use report_names::printing::Header;
use report_names::{Admitted, places};
use report_places::{Located, Query, locate};
use report_wording::writing::say;
use std::env::{Env, FillError};
use std::fs::File;
use std::io;
use std::io::{Read, Stdout};
use text_admission::Admission;
use text_header::spans::spells;

fn place_of(grammar: &[u8], i: usize) -> usize {
    match locate(grammar, Query::Construct(i)) {
        Located::Construct { place, .. } => place,
        _ => 0,
    }
}

fn constructs(grammar: &[u8], count: usize, found: &mut [usize]) {
    for (i, place) in found.iter_mut().enumerate().take(count) {
        *place = place_of(grammar, i);
    }
}

fn admitted<'a>(out: Stdout, grammar: &'a [u8], prefix: &'a [u8], table: &'a [u32], weight: usize) {
    let mut rules = [0usize; 64];
    let mut found = [0usize; 256];
    places::rules(grammar, &mut rules);
    constructs(grammar, table_layout::word(table, 2), &mut found);
    let admitted = Admitted {
        grammar,
        table,
        rules: &rules,
        constructs: &found,
    };
    Header {
        out,
        prefix,
        admitted,
    }
    .print(weight);
}

// A program that includes it is not compiled.
fn refused(out: Stdout, n: usize, place: usize) {
    let _ = println!(out; "#error \"the grammar is refused: number {n} at byte {place}\"");
}

fn answered(out: Stdout, grammar: &[u8], prefix: &[u8], table: &[u32], answer: Admission) {
    match answer {
        Admission::Admitted { weight } => admitted(out, grammar, prefix, table, weight),
        Admission::Refused { number, place } => refused(out, number, place),
        Admission::Conflict { place, .. } => refused(out, 10, place),
    }
}

fn named(out: Stdout, grammar: &[u8], prefix: &[u8]) {
    let mut table = [0u32; 16384];
    let answer = admission_call::admit(grammar, &mut table);
    answered(out, grammar, prefix, &table, answer);
}

// One byte more than a grammar may have.
fn read<R: Read>(out: Stdout, from: &mut R, prefix: &[u8]) {
    let mut buffer = [0u8; 8193];
    let n = reading::read_full(from, &mut buffer);
    named(out, &buffer[..n], prefix);
}

// The file, or an error that is told to standard error.
fn opened(rt: &HostRuntime, path: &[u8]) -> io::Result<File> {
    let Ok(name) = str::from_utf8(path) else {
        return Err(io::Error::from(io::ErrorKind::InvalidInput));
    };
    let answer = File::open(rt, name);
    if let Err(error) = &answer {
        let _ = eprintln!(rt; "{name}: {error}");
    }
    answer
}

fn file(rt: &HostRuntime, path: &[u8], prefix: &[u8]) {
    match opened(rt, path) {
        Ok(mut file) => read(rt.stdout(), &mut file, prefix),
        Err(_) => say(rt.stdout(), b"#error \"the grammar cannot be opened\"\n"),
    }
}

fn help(out: Stdout) {
    say(
        out,
        b"usage: names [FILE [PREFIX]]\n\
        Prints a C header for the grammar FILE: a constant for each field and each\n\
        variable by its rule and its name, the weight, and macros for the steps and\n\
        the room that a frame needs. Without FILE it reads kiosk.dogma; - is standard\n\
        input. PREFIX is put in front of every name, for programs with more than one\n\
        grammar. Of a grammar that is refused it prints an #error with number and place.\n",
    );
}

fn word(rt: &HostRuntime, path: &[u8], prefix: &[u8]) {
    if spells(false, path, b"--help") {
        help(rt.stdout());
        return;
    }
    if spells(false, path, b"-") {
        read(rt.stdout(), &mut rt.stdin(), prefix);
        return;
    }
    file(rt, path, prefix);
}

// The argument `i` at the buffer's start, and its length: 0 where it is longer than the buffer. Nothing where there is none.
fn argument(rt: &HostRuntime, i: usize, buffer: &mut [u8]) -> Option<usize>
    ensures { IfSome result (λ n. n ≤ length buffer.new) }
{
    match rt.arg(i, buffer) {
        Ok(n) => Some(n),
        Err(FillError::TooLong) => Some(0),
        Err(FillError::NotPresent) => None,
    }
}

fn prefixed(rt: &HostRuntime, path: &[u8]) {
    let mut prefix = [0u8; 4096];
    match argument(rt, 2, &mut prefix) {
        Some(n) => word(rt, path, &prefix[..n]),
        None => word(rt, path, b""),
    }
}

fn main(rt: HostRuntime) {
    let mut path = [0u8; 4096];
    match argument(&rt, 1, &mut path) {
        Some(n) => prefixed(&rt, &path[..n]),
        None => file(&rt, b"kiosk.dogma", b""),
    }
}
