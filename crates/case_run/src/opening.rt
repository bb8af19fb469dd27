// Openings on the bench sheet's tables, completed; then openings that are refused.
use crate::printing::{number, show_verdict, text, whole};
use basis::{MAX_FRAME_BYTES, TABLE_WORDS};
use run_grants::Run;
use run_matcher::Answer;
use std::io::Stdout;

// A frame of one byte too many, and a reading with room for it.
pub const LONG_FRAME: usize = MAX_FRAME_BYTES + 1;

pub const LONG_READING: usize = 16 * LONG_FRAME;

fn show_answer(out: Stdout, answer: Answer) {
    match answer {
        Answer::Unsound => text(out, b"refused 23"),
        Answer::LongFrame => text(out, b"refused 21"),
        Answer::SmallReading => text(out, b"refused 22"),
        Answer::Opened => text(out, b"opened"),
    }
}

// Sets and weight are put in, where the words pass the judgement.
fn complete(table: &mut [u32; TABLE_WORDS]) {
    let mut first = [0u64; 2056];
    if table_judge::formed(&table[..]) {
        let _ = table_fill::complete(&mut table[..], &mut first);
    }
}

fn show_run(out: Stdout, run: Run) {
    text(out, b", ");
    show_verdict(out, run.verdict);
    text(out, b" ");
    number(out, run.steps);
}

// An opening, and all the steps that its run may want.
fn play(out: Stdout, table: &[u32], frame: &[u8], reading: &mut [u32]) {
    let opening = run_matcher::open(table, frame, reading);
    let answer = opening.answer;
    show_answer(out, answer);
    let run = opening.run;
    let granted = run_grants::advance(table, frame, reading, run, 18446744073709551615);
    show_run(out, granted.run);
}

// Over the first `words` of a table and `room` of a reading.
fn over(out: Stdout, table: &[u32], words: usize, frame: &[u8], reading: &mut [u32], room: usize) {
    if table.len() < words {
        return;
    }
    if reading.len() < room {
        return;
    }
    play(out, &table[0..words], frame, &mut reading[0..room]);
}

fn row(
    out: Stdout,
    name: &[u8],
    table: &[u32; TABLE_WORDS],
    words: usize,
    frame: &[u8],
    room: usize,
) {
    let mut reading = [0u32; 512];
    text(out, name);
    text(out, b": ");
    over(out, &table[..], words, frame, &mut reading, room);
    text(out, b"\n");
}

fn sheet_g(out: Stdout) {
    let mut table = [0u32; TABLE_WORDS];
    case_tables::g(&mut table);
    row(
        out,
        b"K1 without its sets",
        &table,
        TABLE_WORDS,
        &[2, 65, 66],
        512,
    );
    complete(&mut table);
    row(out, b"K1 024142", &table, TABLE_WORDS, &[2, 65, 66], 512);
    row(out, b"K2 0241", &table, TABLE_WORDS, &[2, 65], 512);
    row(
        out,
        b"K3 02414243",
        &table,
        TABLE_WORDS,
        &[2, 65, 66, 67],
        512,
    );
    row(out, b"K4", &table, TABLE_WORDS, b"", 0);
    row(
        out,
        b"K1, reading of 48 words",
        &table,
        TABLE_WORDS,
        &[2, 65, 66],
        48,
    );
    row(
        out,
        b"K1, reading of 47 words",
        &table,
        TABLE_WORDS,
        &[2, 65, 66],
        47,
    );
    row(
        out,
        b"K1, table of 16,383 words",
        &table,
        16383,
        &[2, 65, 66],
        512,
    );
    long_frames(out, &table);
}

// A frame at the limit, which only the reading is too small for, and one past it.
fn long_frames(out: Stdout, table: &[u32; TABLE_WORDS]) {
    let longest = [65u8; MAX_FRAME_BYTES];
    row(
        out,
        b"frame of 1,024 bytes",
        table,
        TABLE_WORDS,
        &longest,
        0,
    );
    let long = [65u8; LONG_FRAME];
    row(out, b"frame of 1,025 bytes", table, TABLE_WORDS, &long, 0);
    row(
        out,
        b"frame of 1,025 bytes, table of 16,383 words",
        table,
        16383,
        &long,
        0,
    );
}

fn sheet_5_6(out: Stdout) {
    let mut table = [0u32; TABLE_WORDS];
    case_tables::k5(&mut table);
    complete(&mut table);
    row(out, b"K5 AB", &table, TABLE_WORDS, b"AB", 512);
    let mut table6 = [0u32; TABLE_WORDS];
    case_tables::k6(&mut table6);
    complete(&mut table6);
    row(out, b"K6 12", &table6, TABLE_WORDS, &[18], 512);
    row(out, b"K7 11", &table6, TABLE_WORDS, &[17], 512);
}

fn sheet_9_10(out: Stdout) {
    let mut table = [0u32; TABLE_WORDS];
    case_tables::k9(&mut table);
    complete(&mut table);
    row(out, b"K9 00", &table, TABLE_WORDS, &[0], 512);
    row(out, b"K9 01", &table, TABLE_WORDS, &[1], 512);
    let mut table10 = [0u32; TABLE_WORDS];
    case_tables::k10(&mut table10);
    complete(&mut table10);
    row(out, b"K10 0141", &table10, TABLE_WORDS, &[1, 65], 512);
    row(out, b"K10 03", &table10, TABLE_WORDS, &[3], 512);
}

// A run to its end, and what it bound.
fn bound(out: Stdout, name: &[u8], table: &[u32; TABLE_WORDS], frame: &[u8]) {
    let mut reading = [0u32; 144];
    let opening = run_matcher::open(&table[..], frame, &reading);
    let run = opening.run;
    let granted = run_grants::advance(&table[..], frame, &mut reading, run, 18446744073709551615);
    let after = granted.run;
    text(out, name);
    show_run(out, after);
    text(out, b", value ");
    whole(out, after.values[0]);
    text(out, b"\n");
}

// `frame = sint(8, var(d, -2~2)) & uint(64, 4294967296 + d~);`
fn signed(out: Stdout) {
    let mut table = [0u32; TABLE_WORDS];
    case_tables::wide(&mut table);
    complete(&mut table);
    bound(
        out,
        b"-1 and 2^32 - 1",
        &table,
        &[255, 0, 0, 0, 0, 255, 255, 255, 255],
    );
    bound(
        out,
        b"-1 and 2^32 - 2",
        &table,
        &[255, 0, 0, 0, 0, 255, 255, 255, 254],
    );
    bound(
        out,
        b"2 and 2^64 - 1",
        &table,
        &[2, 255, 255, 255, 255, 255, 255, 255, 255],
    );
    bound(
        out,
        b"-3 and 2^64 - 1",
        &table,
        &[253, 255, 255, 255, 255, 255, 255, 255, 255],
    );
}

pub fn openings(out: Stdout) {
    sheet_g(out);
    sheet_5_6(out);
    sheet_9_10(out);
    signed(out);
}
