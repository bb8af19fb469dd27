// Judges tables of the bench sheet's grammars and of a few more, completes those that pass, and asks of each word changed in turn whether
// the table is still sound.
#![tactic(auto)]

use basis::TABLE_WORDS;
use std::io::Stdout;
use table_conflicts::Clash;
use table_first_follow::FAMILY_WORDS;
use table_judge::Fault;

fn text(out: Stdout, bytes: &[u8]) {
    let _ = out.write_all(bytes);
}

fn number(out: Stdout, before: &[u8], n: usize) {
    text(out, before);
    let _ = out.print(n as u64);
}

fn show_clash(out: Stdout, clash: Clash) {
    match clash {
        Clash::None => text(out, b" without a clash"),
        Clash::Branches {
            window,
            first,
            second,
        } => {
            number(out, b", window ", window);
            number(out, b", branches ", first);
            number(out, b" and ", second);
        }
        Clash::Passes { window } => number(out, b", window ", window),
    }
}

fn show_judgement(out: Stdout, judgement: Result<usize, Fault>) {
    match judgement {
        Ok(weight) => number(out, b" weight ", weight),
        Err(Fault::EmptyBody { construct }) => number(out, b" 9 at construct ", construct),
        Err(Fault::Conflict { construct, clash }) => {
            number(out, b" 10 at construct ", construct);
            show_clash(out, clash);
        }
        Err(Fault::Overweight) => text(out, b" 11"),
        Err(Fault::Unreached { rule }) => number(out, b" 12 at rule ", rule),
        Err(Fault::NoValue { construct }) => number(out, b" 13 at construct ", construct),
    }
}

// What is wrong with words that do not pass 5 to 8.
fn show_form(out: Stdout, table: &[u32; TABLE_WORDS]) {
    if table_wellformed::laid(&table[..]) {
        match table_reach::recursive_rule(&table[..]) {
            Some(rule) => number(out, b" 7 at rule ", rule),
            None => number(
                out,
                b" 8 at construct ",
                table_sizes::first_oversized(&table[..]),
            ),
        }
    } else {
        text(out, b" not laid out");
    }
}

fn judge(out: Stdout, table: &mut [u32; TABLE_WORDS]) {
    let mut first = [0u64; FAMILY_WORDS];
    if table_judge::formed(&table[..]) {
        show_judgement(out, table_fill::complete(&mut table[..], &mut first));
    } else {
        show_form(out, table);
    }
}

fn more(n: usize) -> usize {
    if n < 1000000 {
        return n + 1;
    }
    n
}

// Whether the table is sound with another word at k.
fn changed(table: &mut [u32; TABLE_WORDS], k: usize, w: u32) -> bool {
    if w < 4294967295 {
        case_tables::put(table, k, w + 1);
    } else {
        case_tables::put(table, k, 0);
    }
    table_judge::sound::sound(&table[..])
}

// How many words can be one more, and leave the table sound.
fn changes(table: &mut [u32; TABLE_WORDS]) -> usize {
    let mut still = 0;
    for k in 0..TABLE_WORDS {
        let w = table[k];
        if changed(table, k, w) {
            still = more(still);
        }
        case_tables::put(table, k, w);
    }
    still
}

fn show(out: Stdout, name: &[u8], table: &mut [u32; TABLE_WORDS]) {
    text(out, name);
    judge(out, table);
    if table_judge::sound::sound(&table[..]) {
        number(out, b"; sound, and still with ", changes(table));
        text(out, b" of 16384 words one more");
    }
    text(out, b"\n");
}

fn clear(table: &mut [u32; TABLE_WORDS]) {
    for k in 0..TABLE_WORDS {
        table[k] = 0;
    }
}

// 12 and 13.
fn show_strict(out: Stdout, table: &mut [u32; TABLE_WORDS]) {
    clear(table);
    case_tables::unreached(table);
    show(out, b"unreached:", table);
    clear(table);
    case_tables::valueless(table);
    show(out, b"valueless:", table);
    clear(table);
    case_tables::valueless_sint(table);
    show(out, b"valueless sint:", table);
}

// 64 bits, a sign and a number past 32 bits.
fn show_wide(out: Stdout, table: &mut [u32; TABLE_WORDS]) {
    clear(table);
    case_tables::wide(table);
    show(out, b"wide:", table);
}

fn main(rt: HostRuntime) {
    let out = rt.stdout();
    let mut table = [0u32; TABLE_WORDS];
    show(out, b"nothing:", &mut table);
    case_tables::g(&mut table);
    show(out, b"G:", &mut table);
    clear(&mut table);
    case_tables::k5(&mut table);
    show(out, b"K5:", &mut table);
    clear(&mut table);
    case_tables::k6(&mut table);
    show(out, b"K6:", &mut table);
    clear(&mut table);
    case_tables::k8(&mut table);
    show(out, b"K8:", &mut table);
    clear(&mut table);
    case_tables::k9(&mut table);
    show(out, b"K9:", &mut table);
    clear(&mut table);
    case_tables::k10(&mut table);
    show(out, b"K10:", &mut table);
    clear(&mut table);
    case_tables::k11(&mut table);
    show(out, b"K11:", &mut table);
    clear(&mut table);
    case_tables::large(&mut table);
    show(out, b"large:", &mut table);
    clear(&mut table);
    case_tables::unclear(&mut table);
    show(out, b"unclear:", &mut table);
    clear(&mut table);
    case_tables::heavy(&mut table);
    show(out, b"heavy:", &mut table);
    show_strict(out, &mut table);
    show_wide(out, &mut table);
}
