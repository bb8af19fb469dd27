// Asks of tables of the bench sheet's grammars, their sets left 0, whether they are laid out right; then the same of each table with one
// word changed.
use crate::printing::{number, text};
use basis::TABLE_WORDS;
use std::io::Stdout;

// How many words can be one more, and leave the table laid out.
fn changes(table: &mut [u32; TABLE_WORDS]) -> u64 {
    let mut still: u64 = 0;
    for k in 0..TABLE_WORDS {
        let w = table[k];
        if changed(table, k, w) {
            still = more(still);
        }
        case_tables::put(table, k, w);
    }
    still
}

fn more(n: u64) -> u64 {
    if n < 1000000 {
        return n + 1;
    }
    n
}

// Whether the table is laid out with another word at k.
fn changed(table: &mut [u32; TABLE_WORDS], k: usize, w: u32) -> bool {
    if w < 4294967295 {
        case_tables::put(table, k, w + 1);
    } else {
        case_tables::put(table, k, 0);
    }
    table_wellformed::laid(&table[..])
}

fn show(out: Stdout, name: &[u8], table: &mut [u32; TABLE_WORDS]) {
    text(out, name);
    if table_wellformed::laid(&table[..]) {
        text(out, b" laid out, still with ");
    } else {
        text(out, b" not laid out, but with ");
    }
    let still = changes(table);
    number(out, b"", still as usize);
    text(out, b" of 16384 words one more\n");
}

pub fn words_changed(out: Stdout) {
    let mut table = [0u32; TABLE_WORDS];
    show(out, b"nothing:", &mut table);
    case_tables::g(&mut table);
    show(out, b"G:", &mut table);
    let mut table5 = [0u32; TABLE_WORDS];
    case_tables::k5(&mut table5);
    show(out, b"K5:", &mut table5);
    let mut table6 = [0u32; TABLE_WORDS];
    case_tables::k6(&mut table6);
    show(out, b"K6:", &mut table6);
    let mut table10 = [0u32; TABLE_WORDS];
    case_tables::k10(&mut table10);
    show(out, b"K10:", &mut table10);
    let mut table64 = [0u32; TABLE_WORDS];
    case_tables::wide(&mut table64);
    show(out, b"wide:", &mut table64);
}
