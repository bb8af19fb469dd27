// Refusals 1 to 9 and 11 to 13: what each means, and what to change.
use crate::{heavy, limits, names, recursion, unreached, values};
use report_clashes::empty;
use report_wording::lines;
use report_wording::writing::number;
use std::io::Stdout;

fn late(out: Stdout, grammar: &[u8], n: usize, at: usize) {
    match n {
        7 => recursion::explained(out, grammar, at),
        8 => report_advice::rest::extent(out, grammar, at),
        9 => empty::explained(out, grammar, at),
        11 => heavy::explained(out, grammar),
        12 => unreached::explained(out, grammar),
        13 => values::explained(out, grammar, at),
        _ => report_advice::rest::table(out),
    }
}

fn explained(out: Stdout, grammar: &[u8], n: usize, at: usize) {
    match n {
        3 => report_advice::header::wrong(out, grammar, at),
        4 => report_form::form::wrong(out, grammar, at),
        5 => limits::passed(out, grammar, at),
        6 => names::fault(out, grammar, at),
        _ => late(out, grammar, n, at),
    }
}

pub fn refused(out: Stdout, grammar: &[u8], n: usize, at: usize) {
    number(out, b"refused, number ", n);
    report_advice::titles::title(out, n);
    if n == 2 {
        report_advice::header::size(out, grammar);
        return;
    }
    lines::shown(out, grammar, at);
    explained(out, grammar, n, at);
}
