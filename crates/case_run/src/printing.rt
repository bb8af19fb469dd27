// What both parts print with.
use std::io::Stdout;

pub fn text(out: Stdout, bytes: &[u8]) {
    let _ = out.write_all(bytes);
}

pub fn number(out: Stdout, n: u64) {
    let _ = out.print(n);
}

// A whole number with its sign.
pub fn whole(out: Stdout, z: i64) {
    if z < 0 {
        text(out, b"-");
    }
    number(out, term_integers::magnitude(z));
}

pub fn show_verdict(out: Stdout, v: u32) {
    match v {
        0 => text(out, b"undecided"),
        1 => text(out, b"match"),
        2 => text(out, b"no match"),
        3 => text(out, b"closed"),
        4 => text(out, b"broken"),
        _ => text(out, b"unknown"),
    }
}
