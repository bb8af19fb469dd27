// The bench program: reads kiosk.dogma, then frames from standard input, each a line of hexadecimal, and prints the answers (document 01).
#![tactic(auto)]

ghost use Rattle.std.specs.Prelude.{◌≡◌, ◌+◌, ◌*◌, ◌≤◌, length};
ghost use Rattle.bench_hexadecimal.specs.Lines.{max_line};
ghost use Rattle.basis.specs.Limits.{max_weight, max_frame_bytes};
ghost use Rattle.run_matcher.specs.Opening.{number_of};
ghost use Rattle.bench.specs.Weights.{Light};

use basis::{MAX_FRAME_BITS, MAX_FRAME_BYTES, TABLE_WORDS};
use bench_hexadecimal::{Line, MAX_LINE};
use run_grants::Run;
use run_matcher::Answer;
use std::fs::File;
use std::io::{Stdin, Stdout};
use text_admission::Admission;

// Two words for each bit of a frame.
const READING_WORDS: usize = 2 * MAX_FRAME_BITS;

// Of a longer line so many characters are kept: too long also without a CR.
const LINE_KEPT: usize = MAX_LINE + 2;

// The characters held after a piece of the input.
#[derive(Clone, Copy)]
struct Step {
    held: usize,
    ended: bool,
}

fn text(out: Stdout, bytes: &[u8]) {
    let _ = out.write_all(bytes);
}

fn number(out: Stdout, before: &[u8], n: u64) {
    text(out, before);
    let _ = out.print(n);
}

fn refused(out: Stdout, n: u64) {
    number(out, b"refused ", n);
    text(out, b"\n");
}

fn show_grammar(out: Stdout, answer: Admission) {
    match answer {
        Admission::Admitted { weight } => number(out, b"grammar 0 weight ", weight as u64),
        Admission::Refused { number: n, place } => {
            number(out, b"grammar ", n as u64);
            number(out, b" at ", place as u64);
        }
        Admission::Conflict {
            place,
            construct: _,
            clash: _,
        } => number(out, b"grammar 10 at ", place as u64),
    }
    text(out, b"\n");
}

// weight × (bits + 1)
fn bound(weight: usize, bytes: usize) -> u64
    requires { (weight ≤ max_weight) × (bytes ≤ max_frame_bytes) }
    ensures { result ≡ weight * (8 * bytes + 1) }
{
    (weight * (8 * bytes + 1)) as u64
}

fn show_verdict(out: Stdout, v: u32) {
    match v {
        1 => text(out, b"match "),
        2 => text(out, b"no match "),
        _ => text(out, b"undecided "),
    }
}

fn show_run(out: Stdout, weight: usize, bytes: usize, run: Run)
    requires { (weight ≤ max_weight) × (bytes ≤ max_frame_bytes) }
{
    show_verdict(out, run.verdict);
    number(out, b"", run.steps);
    number(out, b" of ", bound(weight, bytes));
    text(out, b"\n");
}

fn grant(out: Stdout, table: &[u32], frame: &[u8], reading: &mut [u32], run: Run, weight: usize)
    requires { (weight ≤ max_weight) × (length frame.now ≤ max_frame_bytes) }
{
    let granted = run_grants::advance(table, frame, reading, run, 18446744073709551615);
    show_run(out, weight, frame.len(), granted.run);
}

// An opening's number of refusal; 0 for none.
fn refusal(answer: Answer) -> u64
    ensures { result ≡ number_of answer }
{
    match answer {
        Answer::Unsound => 23,
        Answer::LongFrame => 21,
        Answer::SmallReading => 22,
        Answer::Opened => 0,
    }
}

fn play(out: Stdout, table: &[u32], frame: &[u8], reading: &mut [u32], weight: usize)
    requires { (weight ≤ max_weight) × (length frame.now ≤ max_frame_bytes) }
{
    let opening = run_matcher::open(table, frame, reading);
    let answer = opening.answer;
    let n = refusal(answer);
    if 0 < n {
        refused(out, n);
        return;
    }
    let run = opening.run;
    grant(out, table, frame, reading, run, weight);
}

// The frame that the first `n` bytes are.
fn framed(out: Stdout, table: &[u32; TABLE_WORDS], weight: usize, bytes: &[u8], n: usize)
    requires { (weight ≤ max_weight) × (n ≤ length bytes.now) × (n ≤ max_frame_bytes) }
{
    let mut reading = [0u32; READING_WORDS];
    play(out, &table[..], &bytes[0..n], &mut reading, weight);
}

fn decoded(out: Stdout, table: &[u32; TABLE_WORDS], weight: usize, line: &[u8], n: usize)
    requires { (weight ≤ max_weight) × (length line.now ≤ max_line) × (n ≤ max_frame_bytes) }
{
    let mut bytes = [0u8; MAX_FRAME_BYTES];
    bench_hexadecimal::decode(line, &mut bytes);
    framed(out, table, weight, &bytes, n);
}

fn answered(out: Stdout, table: &[u32; TABLE_WORDS], weight: usize, line: &[u8])
    requires { weight ≤ max_weight }
{
    let kind = bench_hexadecimal::classify(line);
    match kind {
        Line::TooLong => refused(out, bench_hexadecimal::number(kind)),
        Line::NoFrame => refused(out, bench_hexadecimal::number(kind)),
        Line::Frame(n) => decoded(out, table, weight, line, n),
    }
}

// A line that LF ends.
fn ended(out: Stdout, table: &[u32; TABLE_WORDS], weight: usize, line: &[u8], held: usize)
    requires { (weight ≤ max_weight) × (held ≤ length line.now) }
{
    answered(
        out,
        table,
        weight,
        text_header::header::content(&line[0..held]),
    );
}

// A last line without LF is one if it has a byte.
fn last(out: Stdout, table: &[u32; TABLE_WORDS], weight: usize, line: &[u8], held: usize)
    requires { (weight ≤ max_weight) × (held ≤ length line.now) }
{
    if 0 < held {
        answered(out, table, weight, &line[0..held]);
    }
}

fn line_ended(
    out: Stdout,
    table: &[u32; TABLE_WORDS],
    weight: usize,
    line: &[u8; LINE_KEPT],
    held: usize,
)
    requires { (weight ≤ max_weight) × (held ≤ max_line + 2) }
{
    ended(out, table, weight, &line[..], held);
}

fn keep(line: &mut [u8; LINE_KEPT], held: usize, byte: u8) -> usize
    requires { held ≤ max_line + 2 }
    ensures { result ≤ max_line + 2 }
{
    if held < LINE_KEPT {
        line[held] = byte;
        return held + 1;
    }
    held
}

fn take(
    out: Stdout,
    table: &[u32; TABLE_WORDS],
    weight: usize,
    line: &mut [u8; LINE_KEPT],
    held: usize,
    byte: u8,
) -> usize
    requires { (weight ≤ max_weight) × (held ≤ max_line + 2) }
    ensures { result ≤ max_line + 2 }
{
    if byte == 10 {
        line_ended(out, table, weight, line, held);
        return 0;
    }
    keep(line, held, byte)
}

fn take_all(
    out: Stdout,
    table: &[u32; TABLE_WORDS],
    weight: usize,
    line: &mut [u8; LINE_KEPT],
    before: usize,
    piece: &[u8],
) -> usize
    requires { (weight ≤ max_weight) × (before ≤ max_line + 2) }
    ensures { result ≤ max_line + 2 }
{
    let mut held = before;
    for i in 0..piece.len() {
        held = take(out, table, weight, line, held, piece[i]);
    }
    held
}

fn piece(
    out: Stdout,
    from: Stdin,
    table: &[u32; TABLE_WORDS],
    weight: usize,
    line: &mut [u8; LINE_KEPT],
    held: usize,
) -> Step
    requires { (weight ≤ max_weight) × (held ≤ max_line + 2) }
    ensures { result.held ≤ max_line + 2 }
{
    let mut buffer = [0u8; 4096];
    let n = reading::count(&mut &from, &mut buffer);
    let after = take_all(out, table, weight, line, held, &buffer[..n]);
    Step {
        held: after,
        ended: n == 0,
    }
}

// Nothing says that the input ends, so the turns are counted from a number that no input uses up.
fn lines(
    out: Stdout,
    from: Stdin,
    table: &[u32; TABLE_WORDS],
    weight: usize,
    line: &mut [u8; LINE_KEPT],
) -> usize
    requires { weight ≤ max_weight }
    ensures { result ≤ max_line + 2 }
{
    let mut held = 0;
    for _turns in 0..u64::MAX {
        let step = piece(out, from, table, weight, line, held);
        held = step.held;
        if step.ended {
            return held;
        }
    }
    held
}

fn last_of(
    out: Stdout,
    table: &[u32; TABLE_WORDS],
    weight: usize,
    line: &[u8; LINE_KEPT],
    held: usize,
)
    requires { (weight ≤ max_weight) × (held ≤ max_line + 2) }
{
    last(out, table, weight, &line[..], held);
}

fn frames(out: Stdout, from: Stdin, table: &[u32; TABLE_WORDS], weight: usize)
    requires { weight ≤ max_weight }
{
    let mut line = [0u8; LINE_KEPT];
    let held = lines(out, from, table, weight, &mut line);
    last_of(out, table, weight, &line, held);
}

fn admit_text(bytes: &[u8], table: &mut [u32; TABLE_WORDS]) -> Admission
    ensures { Light result }
{
    admission_call::admit(bytes, &mut table[..])
}

// Of a longer text so many bytes are enough to refuse it.
fn admit(from: &mut File, table: &mut [u32; TABLE_WORDS]) -> Admission
    ensures { Light result }
{
    let mut bytes = [0u8; 8193];
    let n = reading::read_full(from, &mut bytes);
    admit_text(&bytes[..n], table)
}

fn admit_file(rt: &HostRuntime, table: &mut [u32; TABLE_WORDS]) -> Admission
    ensures { Light result }
{
    match File::open(rt, "kiosk.dogma") {
        Ok(mut file) => admit(&mut file, table),
        Err(_) => admit_text(b"", table),
    }
}

fn start(out: Stdout, from: Stdin, answer: Admission, table: &[u32; TABLE_WORDS])
    requires { Light answer }
{
    match answer {
        Admission::Admitted { weight } => frames(out, from, table, weight),
        Admission::Refused {
            number: _,
            place: _,
        } => {}
        Admission::Conflict {
            place: _,
            construct: _,
            clash: _,
        } => {}
    }
}

fn main(rt: HostRuntime) {
    let out = rt.stdout();
    let mut table = [0u32; TABLE_WORDS];
    let answer = admit_file(&rt, &mut table);
    show_grammar(out, answer);
    start(out, rt.stdin(), answer, &table);
}
