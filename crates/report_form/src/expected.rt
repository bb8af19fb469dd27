// Refusal 4: what can stand at a place, by what stands before it.
use report_quoting::brackets::Kind;
use report_wording::writing::say;
use std::io::Stdout;

fn item(out: Stdout) {
    say(
        out,
        b"Here must come an item: a literal, a rule's name, uint(..), sint(..), eod,\n",
    );
    say(out, b"( or [.\n");
}

fn close(out: Stdout, kind: Option<Kind>) {
    match kind {
        Some(Kind::Group) => say(out, b"& | or ).\n"),
        Some(Kind::Case) => say(out, b"& | or the ; of the case.\n"),
        _ => say(out, b"& | or the ; of the rule.\n"),
    }
}

// A literal of one character may begin a range; the second of a range may not.
fn after_item(out: Stdout, kind: Option<Kind>, second: usize, last: usize) {
    say(out, b"Here can come: ");
    if last == 9 && second != 126 {
        say(out, b"~ ");
    }
    say(out, b"? * + {..} ");
    close(out, kind);
}

fn after_mark(out: Stdout, kind: Option<Kind>) {
    say(out, b"Here can come: ");
    close(out, kind);
}

fn expression(out: Stdout, kind: Option<Kind>, second: usize, last: usize) {
    match last {
        61 | 38 | 124 | 40 | 58 => item(out),
        63 | 42 | 43 | 125 => after_mark(out, kind),
        126 => say(out, b"Here must come a literal of one character.\n"),
        59 => say(out, b"Here must come the name of a rule.\n"),
        _ => after_item(out, kind, second, last),
    }
}

// Whether a number or a variable is missing.
fn is_sign(last: usize) -> bool {
    matches!(last, 43 | 45 | 42 | 60 | 61 | 62 | 161 | 188 | 190)
}

fn value(out: Stdout) {
    say(out, b"Here must come a number or a variable.\n");
}

fn counts(out: Stdout) {
    say(
        out,
        b"Counts are written {4}, {2~4}, {2~} or {~4}, with numbers, variables\n\
        and + - *.\n",
    );
}

fn set(out: Stdout) {
    say(
        out,
        b"A set is written 1 | 5~9 | 20~, or ~ for every value; ~ ! 3 is all but 3.\n",
    );
}

fn condition(out: Stdout) {
    say(
        out,
        b"A case is written n = 1: expression;, with a condition of = != < <= > >=\n\
        in front of the colon.\n",
    );
}

// By the innermost bracket that is open, and the two tokens before.
pub fn told(out: Stdout, kind: Option<Kind>, second: usize, last: usize) {
    match kind {
        None | Some(Kind::Group | Kind::Case) => expression(out, kind, second, last),
        _ if is_sign(last) => value(out),
        Some(Kind::Counts) => counts(out),
        Some(Kind::Switch) => condition(out),
        Some(Kind::Field | Kind::Variable | Kind::Formula) => set(out),
    }
}
