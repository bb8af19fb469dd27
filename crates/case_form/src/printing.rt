// What both parts print with.
use std::io::Stdout;

pub fn text(out: Stdout, bytes: &[u8]) {
    let _ = out.write_all(bytes);
}

pub fn number(out: Stdout, before: &[u8], n: usize) {
    text(out, before);
    let _ = out.print(n as u64);
}
