// Refusal 4: what is wrong with a literal.
use report_wording::lines;
use report_wording::writing::{hexadecimal, number, say};
use std::io::Stdout;
use text_header::bytes::printable;
use text_header::spans::byte_at;
use text_literals::{Extent, Part, reach};

fn long(out: Stdout, count: usize) {
    number(out, b"This literal has ", count);
    say(
        out,
        b" characters. A literal has at most 32.\n\
        What to change: write it as two, with & between them: \"ab\" & \"cd\" is\n\
        \"abcd\".\n",
    );
}

fn unclosed(out: Stdout) {
    say(
        out,
        b"This literal is not closed. It must end on its line, by the quote that\n\
        opened it.\n\
        What to change: put the quote at its end. A quote inside of it is\n\
        written \\\" or \\', a backslash \\\\, a line feed \\[0a].\n",
    );
}

fn empty(out: Stdout) {
    say(
        out,
        b"This literal is empty. A literal has at least 1 character.\n\
        What to change: take it out, with the & or | beside it. What may be\n\
        left out is written with ?, as in \"A\"?.\n",
    );
}

fn escape(out: Stdout, grammar: &[u8], at: usize) {
    say(
        out,
        b"In this literal a backslash is not followed as it must be, at\n",
    );
    lines::shown(out, grammar, at);
    say(
        out,
        b"What to change: a backslash stands only in \\\\ \\\" \\' and \\[hex], from\n\
        \\[0] to \\[7f]. A line feed is \\[0a]. For a byte from 80 to ff write\n\
        uint(8, 0x80).\n",
    );
}

fn foreign(out: Stdout, grammar: &[u8], at: usize) {
    hexadecimal(
        out,
        b"In this literal stands a byte (hexadecimal ",
        byte_at(grammar, at) as usize,
        2,
    );
    say(out, b") that is no\nprintable ASCII, at\n");
    lines::shown(out, grammar, at);
    say(
        out,
        b"What to change: up to 7f write it as \\[hex]: a tab is \\[09]. For a byte\n\
        from 80 to ff write uint(8, 0x80), outside of the literal.\n",
    );
}

// The first byte that is wrong.
fn wrong(out: Stdout, grammar: &[u8], at: usize, place: usize) {
    let b = byte_at(grammar, place);
    if b == b'\n' || b == b'\r' {
        unclosed(out);
    } else if !printable(b) {
        foreign(out, grammar, place);
    } else if place <= at.saturating_add(1) {
        empty(out);
    } else {
        escape(out, grammar, place);
    }
}

fn stopped(out: Stdout, grammar: &[u8], at: usize, extent: Extent) {
    match extent.part {
        Part::Closed => long(out, extent.count),
        Part::Wrong => wrong(out, grammar, at, extent.end.saturating_sub(1)),
        _ => unclosed(out),
    }
}

pub fn fault(out: Stdout, grammar: &[u8], at: usize) {
    if at < grammar.len() {
        stopped(out, grammar, at, reach(grammar, at));
    }
}
