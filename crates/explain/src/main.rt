// Says what is wrong with each grammar file that it is given (kiosk.dogma, where it is given none), and what to change.
#![tactic(auto)]

ghost use Rattle.std.specs.Prelude.{◌≤◌, length, IfSome};

use text_admission::Admission;

mod fields;
mod heavy;
mod limits;
mod names;
mod recursion;
mod refusals;
mod unreached;
mod values;
mod warnings;

use report_wording::writing::{number, say};
use std::env::{Env, FillError};
use std::fs::File;
use std::io;
use std::io::{Read, Stdout};
use table_conflicts::Clash;
use text_header::spans::spells;

// The last line of each report is for scripts.
fn status(out: Stdout, word: &[u8], n: usize, middle: &[u8], m: usize) {
    number(out, word, n);
    number(out, middle, m);
    say(out, b"\n");
}

fn admitted(out: Stdout, grammar: &[u8], weight: usize) {
    fields::admitted(out, grammar, weight);
    warned(out, grammar);
    number(out, b"admitted weight ", weight);
    say(out, b"\n");
}

fn warned(out: Stdout, grammar: &[u8]) {
    let words = report_listing::sets::encoded(grammar).words;
    warnings::told(out, grammar, &words);
}

fn refused(out: Stdout, grammar: &[u8], n: usize, place: usize) {
    refusals::refused(out, grammar, n, place);
    status(out, b"refused ", n, b" at ", place);
}

fn conflict(out: Stdout, grammar: &[u8], place: usize, construct: usize, clash: Clash) {
    report_clashes::clashes::conflict(out, grammar, place, construct, clash);
    status(out, b"refused ", 10, b" at ", place);
}

fn answered(out: Stdout, grammar: &[u8], answer: Admission) {
    match answer {
        Admission::Admitted { weight } => admitted(out, grammar, weight),
        Admission::Refused { number, place } => refused(out, grammar, number, place),
        Admission::Conflict {
            place,
            construct,
            clash,
        } => conflict(out, grammar, place, construct, clash),
    }
}

fn explained(out: Stdout, grammar: &[u8]) {
    let mut table = [0u32; 16384];
    let answer = admission_call::admit(grammar, &mut table);
    answered(out, grammar, answer);
}

// One byte more than a grammar may have.
fn read<R: Read>(out: Stdout, from: &mut R) {
    let mut buffer = [0u8; 8193];
    let n = reading::read_full(from, &mut buffer);
    explained(out, &buffer[..n]);
}

// The file, or an error that is told to standard error.
fn opened(rt: &HostRuntime, path: &[u8]) -> io::Result<File> {
    let Ok(name) = str::from_utf8(path) else {
        return Err(io::Error::from(io::ErrorKind::InvalidInput));
    };
    let answer = File::open(rt, name);
    if let Err(error) = &answer {
        let _ = eprintln!(rt; "{name}: {error}");
    }
    answer
}

fn file(rt: &HostRuntime, path: &[u8]) {
    let out = rt.stdout();
    match opened(rt, path) {
        Ok(mut file) => {
            say(out, path);
            say(out, b": ");
            read(out, &mut file);
        }
        Err(_) => {
            say(out, path);
            say(out, b": this file cannot be opened\nunread\n");
        }
    }
}

fn help(out: Stdout) {
    say(
        out,
        b"usage: explain [FILE]...\n\
        Says of each grammar FILE whether it is admitted; if not, what is wrong with\n\
        it, where, and what to change. Without FILE it reads kiosk.dogma; - is standard\n\
        input. The last line of each report is one of\n    \
        admitted weight W\n    \
        refused N at P     N: number of refusal, P: place in bytes, from 0\n    \
        unread             the file cannot be opened\n\
        tools/explain turns these into the exit statuses 0, 1 and 2.\n",
    );
}

fn word(rt: &HostRuntime, path: &[u8]) {
    let out = rt.stdout();
    if spells(false, path, b"--help") {
        help(out);
        return;
    }
    if spells(false, path, b"-") {
        say(out, b"standard input: ");
        read(out, &mut rt.stdin());
        return;
    }
    file(rt, path);
}

// The argument `i` at the buffer's start, and its length: 0 where it is longer than the buffer. Nothing where there is none.
fn argument(rt: &HostRuntime, i: usize, buffer: &mut [u8]) -> Option<usize>
    ensures { IfSome result (λ n. n ≤ length buffer.new) }
{
    match rt.arg(i, buffer) {
        Ok(n) => Some(n),
        Err(FillError::TooLong) => Some(0),
        Err(FillError::NotPresent) => None,
    }
}

// Whether there is an argument `i`.
fn each(rt: &HostRuntime, i: usize) -> bool {
    let mut path = [0u8; 4096];
    match argument(rt, i, &mut path) {
        Some(n) => {
            word(rt, &path[..n]);
            true
        }
        None => false,
    }
}

// The arguments after the first.
fn every(rt: &HostRuntime) {
    for i in 2..usize::MAX {
        if !each(rt, i) {
            break;
        }
    }
}

fn main(rt: HostRuntime) {
    if !each(&rt, 1) {
        file(&rt, b"kiosk.dogma");
        return;
    }
    every(&rt);
}
