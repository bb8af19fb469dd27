// Runs of the bench sheet's tables over their frames, by grants of 2^64 - 1, of 1, and of 0 and 3 in turn; then saved runs, tables, frames
// and readings of which each is refused or broken for another reason; then forged runs and tables, which end alike by one grant and by many.
use crate::opening::{LONG_FRAME, LONG_READING};
use crate::printing::{number, show_verdict, text};
use basis::TABLE_WORDS;
use run_grants::{Answer, Run};
use std::io::Stdout;

fn show_answer(out: Stdout, answer: Answer) {
    match answer {
        Answer::LongFrame => text(out, b"refused 21"),
        Answer::Unfit => text(out, b"refused 24"),
        Answer::Taken(n) => {
            text(out, b"taken ");
            number(out, n);
        }
    }
}

fn wide(x: u32) -> u64 {
    x as u64
}

fn show_capture(out: Stdout, reading: &[u32; 512], k: usize) {
    if k < 256 {
        text(out, b" ");
        number(out, wide(reading[2 * k]));
        text(out, b" ");
        number(out, wide(reading[2 * k + 1]));
    }
}

// The words of the reading that were recorded.
fn show_reading(out: Stdout, reading: &[u32; 512], captures: u64) {
    for k in 0u64..256 {
        if captures <= k {
            return;
        }
        show_capture(out, reading, k as usize);
    }
}

fn show_run(out: Stdout, run: Run, grants: u64, reading: &[u32; 512]) {
    text(out, b"  ");
    show_verdict(out, run.verdict);
    text(out, b", steps ");
    number(out, run.steps);
    text(out, b", grants ");
    number(out, grants);
    text(out, b", reading");
    show_reading(out, reading, run.captures);
    text(out, b"\n");
}

fn grant(
    table: &[u32; TABLE_WORDS],
    frame: &[u8],
    reading: &mut [u32; 512],
    run: Run,
    steps: u64,
) -> Run {
    if steps == 1 {
        let one = run_grants::step(&table[..], frame, &mut reading[..], run);
        return one.run;
    }
    let granted = run_grants::advance(&table[..], frame, &mut reading[..], run, steps);
    granted.run
}

fn in_turn(grants: u64, even: u64, odd: u64) -> u64 {
    if grants % 2 == 0 {
        return even;
    }
    odd
}

// A run, by grants of `even` and `odd` in turn until it is decided.
fn play(out: Stdout, table: &[u32; TABLE_WORDS], frame: &[u8], from: Run, even: u64, odd: u64) {
    let mut reading = [0u32; 512];
    let mut run = from;
    let mut grants: u64 = 0;
    while grants < 1000 {
        if run.verdict != 0 {
            break;
        }
        let steps = in_turn(grants, even, odd);
        run = grant(table, frame, &mut reading, run, steps);
        grants += 1;
    }
    show_run(out, run, grants, &reading);
}

fn three_ways(out: Stdout, name: &[u8], table: &[u32; TABLE_WORDS], frame: &[u8], run: Run) {
    text(out, name);
    text(out, b"\n");
    play(
        out,
        table,
        frame,
        run,
        18446744073709551615,
        18446744073709551615,
    );
    play(out, table, frame, run, 1, 1);
    play(out, table, frame, run, 0, 3);
}

fn row(out: Stdout, name: &[u8], table: &[u32; TABLE_WORDS], frame: &[u8]) {
    three_ways(out, name, table, frame, run_grants::opened());
}

fn sheet(out: Stdout) {
    let mut table = [0u32; TABLE_WORDS];
    case_tables::g(&mut table);
    row(out, b"K1 024142", &table, &[2, 65, 66]);
    row(out, b"K2 0241", &table, &[2, 65]);
    row(out, b"K3 02414243", &table, &[2, 65, 66, 67]);
    row(out, b"K4", &table, b"");
    let mut table6 = [0u32; TABLE_WORDS];
    case_tables::k6(&mut table6);
    case_tables::k6_sets(&mut table6);
    row(out, b"K6 12", &table6, &[18]);
    row(out, b"K7 11", &table6, &[17]);
    let mut table9 = [0u32; TABLE_WORDS];
    case_tables::k9(&mut table9);
    row(out, b"K9 00", &table9, &[0]);
    row(out, b"K9 01", &table9, &[1]);
    let mut table10 = [0u32; TABLE_WORDS];
    case_tables::k10(&mut table10);
    row(out, b"K10 0141", &table10, &[1, 65]);
    row(out, b"K10 03", &table10, &[3]);
}

// A saved run, granted all it may want.
fn resumed(out: Stdout, name: &[u8], table: &[u32], frame: &[u8], reading: &mut [u32], run: Run) {
    let granted = run_grants::advance(table, frame, reading, run, 18446744073709551615);
    let after = granted.run;
    let answer = granted.answer;
    text(out, name);
    text(out, b": ");
    show_answer(out, answer);
    text(out, b", ");
    show_verdict(out, after.verdict);
    text(out, b"\n");
}

// Over a whole table, the frame 024142 and room for its bits.
fn saved(out: Stdout, name: &[u8], table: &[u32; TABLE_WORDS], run: Run) {
    let mut reading = [0u32; 48];
    resumed(out, name, &table[..], &[2, 65, 66], &mut reading, run);
}

fn over_g(out: Stdout, name: &[u8], run: Run) {
    let mut table = [0u32; TABLE_WORDS];
    case_tables::g(&mut table);
    saved(out, name, &table, run);
}

fn short_table(out: Stdout) {
    let table = [0u32; 16383];
    let mut reading = [0u32; 48];
    resumed(
        out,
        b"16,383 words of table",
        &table,
        &[2, 65, 66],
        &mut reading,
        run_grants::opened(),
    );
}

fn short_reading(out: Stdout, table: &[u32; TABLE_WORDS]) {
    let mut reading = [0u32; 47];
    resumed(
        out,
        b"47 words of room for 24 bits",
        &table[..],
        &[2, 65, 66],
        &mut reading,
        run_grants::opened(),
    );
}

fn long_frame(out: Stdout, table: &[u32; TABLE_WORDS]) {
    let frame = [0u8; LONG_FRAME];
    let mut reading = [0u32; LONG_READING];
    resumed(
        out,
        b"1,025 bytes of frame",
        &table[..],
        &frame,
        &mut reading,
        run_grants::opened(),
    );
}

fn long_frame_short_table(out: Stdout) {
    let table = [0u32; 16383];
    let frame = [0u8; LONG_FRAME];
    let mut reading = [0u32; 48];
    resumed(
        out,
        b"both",
        &table,
        &frame,
        &mut reading,
        run_grants::opened(),
    );
}

// What is handed in, at its bounds.
fn bounds(out: Stdout) {
    over_g(out, b"opened", run_grants::opened());
    let mut table = [0u32; TABLE_WORDS];
    case_tables::g(&mut table);
    short_table(out);
    short_reading(out, &table);
    long_frame(out, &table);
    long_frame_short_table(out);
}

fn positions(out: Stdout) {
    let mut run = run_grants::opened();
    run.position = 24;
    over_g(out, b"position 24", run);
    run.position = 25;
    over_g(out, b"position 25", run);
    run.position = 8;
    run.captures = 8;
    over_g(out, b"8 captures and 16 bits unread", run);
    run.captures = 9;
    over_g(out, b"9 captures and 16 bits unread", run);
    run.captures = 18446744073709551615;
    over_g(out, b"2^64 - 1 captures", run);
}

fn lists(out: Stdout) {
    let mut run = run_grants::opened();
    run.constructs[0] = 4;
    over_g(out, b"construct 4 of 4", run);
    run.constructs[0] = 257;
    over_g(out, b"construct 257", run);
    run.constructs[0] = 3;
    over_g(out, b"construct 3 of 4", run);
    run.constructs[0] = 2;
    run.passes[0] = 25;
    over_g(out, b"25 passes", run);
    run.passes[0] = 26;
    over_g(out, b"26 passes", run);
    run.passes[0] = 0;
    run.count = 257;
    over_g(out, b"257 entries", run);
    run.count = 0;
    over_g(out, b"no entry", run);
}

fn verdicts(out: Stdout) {
    let mut run = run_grants::opened();
    run.verdict = 5;
    over_g(out, b"verdict 5", run);
    run.verdict = 4;
    over_g(out, b"verdict 4", run);
    over_g(out, b"closed", run_grants::closed());
}

// What ends a run as broken.
fn broken(out: Stdout) {
    let mut run = run_grants::opened();
    run.steps = 142;
    over_g(out, b"8 of 150 steps left", run);
    run.steps = 143;
    over_g(out, b"7 of 150 steps left", run);
    run.steps = 0;
    run.constructs[0] = 2;
    run.values[0] = 4611686018427387905;
    over_g(out, b"a value past 2^62", run);
    let mut table = [0u32; TABLE_WORDS];
    case_tables::g(&mut table);
    case_tables::put(&mut table, 600, 10);
    saved(out, b"kind 10", &table, run_grants::opened());
}

// A run before construct i.
fn before(i: u32) -> Run {
    let mut run = run_grants::opened();
    run.constructs[0] = i;
    run
}

// A table that counts fewer constructs than one of them has parts: members, a branch, a body, a case.
fn members_past(out: Stdout) {
    let mut table = [0u32; TABLE_WORDS];
    case_tables::g(&mut table);
    case_tables::put(&mut table, 2, 3);
    row(out, b"3 of 4 constructs, members", &table, &[2, 65, 66]);
}

fn branch_past(out: Stdout) {
    let mut table = [0u32; TABLE_WORDS];
    case_tables::k5(&mut table);
    case_tables::put(&mut table, 2, 2);
    case_tables::put(&mut table, 7818, 2);
    row(out, b"2 of 3 constructs, a branch", &table, b"AC");
}

fn body_past(out: Stdout) {
    let mut table = [0u32; TABLE_WORDS];
    case_tables::k6(&mut table);
    case_tables::k6_sets(&mut table);
    case_tables::put(&mut table, 2, 2);
    three_ways(out, b"2 of 4 constructs, a body", &table, &[17], before(1));
}

fn over_k10(out: Stdout, name: &[u8], constructs: u32, terms: u32) {
    let mut table = [0u32; TABLE_WORDS];
    case_tables::k10(&mut table);
    case_tables::put(&mut table, 2, constructs);
    case_tables::put(&mut table, 4, terms);
    let mut run = before(2);
    run.values[0] = 2;
    three_ways(out, name, &table, b"AB", run);
}

fn case_past(out: Stdout) {
    over_k10(out, b"4 of 5 constructs, a case", 4, 8);
    over_k10(out, b"6 of 8 terms, a condition", 5, 6);
}

// Fewer terms and variables than a set, counts and a binder name.
fn counted_g(out: Stdout, name: &[u8], variables: u32, terms: u32) {
    let mut table = [0u32; TABLE_WORDS];
    case_tables::g(&mut table);
    case_tables::put(&mut table, 3, variables);
    case_tables::put(&mut table, 4, terms);
    row(out, name, &table, &[2, 65, 66]);
}

fn terms_past(out: Stdout) {
    counted_g(out, b"2 of 5 terms, a set", 1, 2);
    counted_g(out, b"3 of 5 terms, counts", 1, 3);
    counted_g(out, b"no variable, a binder", 0, 5);
}

// A variable that is used and not counted.
fn use_past(out: Stdout) {
    let mut table = [0u32; TABLE_WORDS];
    case_tables::g(&mut table);
    case_tables::put(&mut table, 3, 0);
    three_ways(out, b"no variable, a use", &table, &[2, 65, 66], before(2));
}

// A pass more than the frame's bits and one.
fn passed(out: Stdout, name: &[u8], passes: u32) {
    let mut table = [0u32; TABLE_WORDS];
    case_tables::k6(&mut table);
    case_tables::k6_sets(&mut table);
    let mut run = before(1);
    run.passes[0] = passes;
    three_ways(out, name, &table, &[18], run);
}

fn passes_past(out: Stdout) {
    passed(out, b"8 passes of 8 bits", 8);
    passed(out, b"9 passes of 8 bits", 9);
}

pub fn grants(out: Stdout) {
    sheet(out);
    bounds(out);
    positions(out);
    lists(out);
    verdicts(out);
    broken(out);
    members_past(out);
    branch_past(out);
    body_past(out);
    case_past(out);
    terms_past(out);
    use_past(out);
    passes_past(out);
}
