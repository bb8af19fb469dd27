// Rules that reach themselves and weights, over small tables laid out by hand.
use crate::printing::{number, text};
use basis::{MAX_CONSTRUCTS, MAX_RULES};
use std::io::Stdout;

fn header(table: &mut [u32; 2624], rules: u32, constructs: u32) {
    table[1] = rules;
    table[2] = constructs;
}

fn rule(table: &mut [u32; 2624], r: usize, body: u32) {
    if r < MAX_RULES {
        table[64 + 4 * r] = body;
    }
}

fn construct(table: &mut [u32; 2624], i: usize, kind: u32, size: u32, operand: u32) {
    if i < MAX_CONSTRUCTS {
        table[576 + 8 * i] = kind;
        table[577 + 8 * i] = size;
        table[578 + 8 * i] = operand;
    }
}

// What the table's rules come to.
fn report(out: Stdout, name: &[u8], table: &[u32; 2624]) {
    text(out, name);
    match table_reach::recursive_rule(table) {
        Some(r) => {
            number(out, b": reaches itself: rule ", r);
        }
        None => {
            let weighing = table_weights::weigh(table);
            number(out, b": weight ", weighing.grammar as usize);
        }
    }
    text(out, b"\n");
}

// frame = uint(8, var(len, 1~8)) & uint(8, ~){len};
fn bench_g(out: Stdout) {
    let mut table = [0u32; 2624];
    header(&mut table, 1, 4);
    construct(&mut table, 0, 2, 4, 0);
    construct(&mut table, 1, 8, 1, 8);
    construct(&mut table, 2, 3, 2, 4);
    construct(&mut table, 3, 8, 1, 8);
    report(out, b"G", &table);
}

// a = "x" & b; b = a;
fn bench_k11(out: Stdout) {
    let mut table = [0u32; 2624];
    header(&mut table, 2, 4);
    rule(&mut table, 1, 3);
    construct(&mut table, 0, 2, 3, 0);
    construct(&mut table, 1, 6, 1, 1);
    construct(&mut table, 2, 5, 1, 1);
    construct(&mut table, 3, 5, 1, 0);
    report(out, b"K11", &table);
}

// a = b; b = c; c = b;
fn later_cycle(out: Stdout) {
    let mut table = [0u32; 2624];
    header(&mut table, 3, 3);
    rule(&mut table, 1, 1);
    rule(&mut table, 2, 2);
    construct(&mut table, 0, 5, 1, 1);
    construct(&mut table, 1, 5, 1, 2);
    construct(&mut table, 2, 5, 1, 1);
    report(out, b"a cycle that the start rule is not on", &table);
}

// r0 = r1 & r1; r1 = r2 & r2; … ; the last is a literal.
fn chain(out: Stdout, rules: usize) {
    let mut table = [0u32; 2624];
    for r in 0..63 {
        if r + 1 < rules {
            rule(&mut table, r + 1, 3 * (r as u32) + 3);
            construct(&mut table, 3 * r, 2, 3, 0);
            construct(&mut table, 3 * r + 1, 5, 1, r as u32 + 1);
            construct(&mut table, 3 * r + 2, 5, 1, r as u32 + 1);
        }
    }
    if 0 < rules && rules < 64 {
        construct(&mut table, 3 * (rules - 1), 6, 1, 1);
        header(&mut table, rules as u32, 3 * (rules as u32) - 2);
    }
    number(out, b"rules ", rules);
    report(out, b", each used twice by the one before", &table);
}

pub fn small_tables(out: Stdout) {
    bench_g(out);
    bench_k11(out);
    later_cycle(out);
    chain(out, 3);
    chain(out, 15);
    chain(out, 16);
    chain(out, 40);
}
