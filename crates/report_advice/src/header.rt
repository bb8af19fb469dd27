// Refusals 2 and 3: the size of the text, and its header.
ghost use Rattle.std.specs.Prelude.{◌≡◌, leb, length, drop};
ghost use Rattle.text_header.specs.Spans.{span_end};
ghost use Rattle.text_header.specs.declared.Class.{Class};

use report_wording::writing::say;
use std::io::Stdout;
use text_header::Class;
use text_header::spans::span;

fn empty(out: Stdout) {
    say(
        out,
        b"The file is empty, or cannot be read.\n\
        What to change: put a grammar into it. It begins with the line\n    \
        dogma_v1 utf-8\n\
        and an empty line; then come the rules.\n",
    );
}

fn long(out: Stdout) {
    say(
        out,
        b"The grammar has more than 8192 bytes.\n\
        What to change: shorten it. Comments and blanks count too.\n",
    );
}

pub fn size(out: Stdout, grammar: &[u8]) {
    if grammar.is_empty() {
        empty(out);
    } else {
        long(out);
    }
}

fn first_line(out: Stdout) {
    say(
        out,
        b"The first line of a grammar must be\n    \
        dogma_v1 utf-8\n\
        and nothing else: no blank at its start or end, no byte order mark\n\
        in front of it. (More blanks between the two words, and capitals in\n\
        utf-8, are right too.)\n\
        What to change: write it so. An empty line must end the header,\n\
        before the rules.\n",
    );
}

fn unended(out: Stdout) {
    say(
        out,
        b"The text ends in this line.\n\
        What to change: the first line is\n    \
        dogma_v1 utf-8\n\
        Then come an empty line, and the rules.\n",
    );
}

fn header_line(out: Stdout) {
    say(
        out,
        b"This line still belongs to the header, and it is no header line.\n\
        What to change: put an empty line (with no blanks) in front of the\n\
        rules; or write a header line as\n    \
        - name = value\n\
        with printable ASCII and tabs only. A comment cannot stand here.\n",
    );
}

fn header_end(out: Stdout) {
    say(
        out,
        b"The text ends in its header: no empty line and no rules follow.\n\
        What to change: add an empty line, and then the rules.\n",
    );
}

// Whether the text's last line has the place in it.
fn last_line(grammar: &[u8], at: usize) -> bool
    ensures { result ≡ leb (length grammar.now) (span_end (Class.Except 10) at (drop at grammar.now)) }
{
    grammar.len() <= span(Class::Except(10), grammar, at)
}

fn wrong_line(out: Stdout, grammar: &[u8], at: usize) {
    if last_line(grammar, at) {
        unended(out);
    } else if at == 0 {
        first_line(out);
    } else {
        header_line(out);
    }
}

pub fn wrong(out: Stdout, grammar: &[u8], at: usize) {
    if at < grammar.len() {
        wrong_line(out, grammar, at);
    } else {
        header_end(out);
    }
}
