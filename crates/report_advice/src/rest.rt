// Refusals 1, 7, 8, 9 and 11.
use basis::MAX_TEXT_BYTES;
use report_quoting::quoting::token;
use report_wording::writing::say;
use std::io::Stdout;
use text_parsing::terminals::look;

pub fn recursive(out: Stdout) {
    say(out, b"This rule leads back to itself:\n");
}

pub fn change_recursive(out: Stdout, grammar: &[u8], at: usize) {
    say(
        out,
        b"What to change: take one of these uses away. What comes again and again\n\
        is written with *, + or {n}: \"A\"+ for a rule that is \"A\" and then itself\n\
        or nothing. Nothing may lead back to the rule ",
    );
    token(out, grammar, at);
    say(out, b".\n");
}

fn large_number(out: Stdout, grammar: &[u8], at: usize) {
    say(out, b"In this calculation the number ");
    token(out, grammar, at);
    say(
        out,
        b" is too large:\n\
        a number is at most 4611686018427387904 (2^62).\n\
        What to change: write a smaller number. Larger values of a field have no\n\
        number of their own: 4611686018427387904~ has all from there on.\n",
    );
}

fn width(out: Stdout) {
    say(
        out,
        b"The width of a uint or sint is a number of bits from 1 to 64, and where\n\
        its value is bound to a variable at most 62.\n\
        What to change: write such a width. A wider field is two, and the frames\n\
        stay as they are meant: 128 bits are uint(64, ~) & uint(64, ~).\n",
    );
}

fn bound_width(out: Stdout) {
    say(
        out,
        b"A field whose value is bound to a variable has at most 62 bits, so that\n\
        the variable can be calculated with; other fields have up to 64.\n\
        What to change: where nothing uses the variable, leave it out: uint(64, ~).\n\
        Else make two fields of it, of which the second is bound. The frames stay\n\
        the same where the first bits are 0: uint(2, 0) & uint(62, var(n, ~)) for\n\
        uint(64, var(n, ~)).\n",
    );
}

fn calculation(out: Stdout) {
    say(
        out,
        b"This calculation can become too large: with every variable at the largest\n\
        value that its width allows, whatever its set, no part of it may pass 2^62\n\
        (about 4.6 times 10^18).\n\
        What to change: multiply smaller numbers, or bind the variable by a field of\n\
        fewer bits. The frames stay the same where the bits in front are a field of\n\
        their own: uint(16, 0) & uint(16, var(n, ~)) for uint(32, var(n, 0~65535)).\n\
        Else they may change.\n",
    );
}

// A number, a name, or a sign of a calculation.
fn belongs(code: usize) -> bool {
    matches!(code, 1 | 2 | 42 | 43 | 45)
}

// The first number past 2^62 of the calculation at a place.
fn large_in(grammar: &[u8], at: usize) -> Option<usize> {
    let mut here = at;
    for _tokens in 0..MAX_TEXT_BYTES {
        let terminal = look(grammar, here);
        if terminal.code == 2 && 4611686018427387904 < terminal.value {
            return Some(terminal.start);
        }
        if !belongs(terminal.code) {
            break;
        }
        here = terminal.end;
    }
    None
}

fn calculated(out: Stdout, grammar: &[u8], at: usize) {
    match large_in(grammar, at) {
        Some(place) => large_number(out, grammar, place),
        None => calculation(out),
    }
}

// A width of 63 or 64 bits is wrong only where it is bound.
fn wide(out: Stdout, bits: usize) {
    match bits {
        63 | 64 => bound_width(out),
        _ => width(out),
    }
}

// 8: only a width is followed by a comma.
pub fn extent(out: Stdout, grammar: &[u8], at: usize) {
    let terminal = look(grammar, at);
    if look(grammar, terminal.end).code == 44 {
        wide(out, terminal.value);
    } else {
        calculated(out, grammar, at);
    }
}

// `free`: by a count with a variable.
pub fn empty_body(out: Stdout, free: bool) {
    if free {
        say(
            out,
            b"What this sign repeats is taken to be possibly empty; the check does not\n\
            know the values of variables. This is how:\n",
        );
    } else {
        say(
            out,
            b"What this sign repeats can take no bits at all, so nobody could say\n\
            how many passes there were. This is how:\n",
        );
    }
}

pub fn change_empty_body(out: Stdout, free: bool) {
    say(
        out,
        b"What to change: let each pass take at least one bit. A ?, * or {0~..}\n\
        around the whole of what is repeated can go: (\"A\"?)* and (\"A\"?)+ match\n\
        what \"A\"* matches. ",
    );
    if free {
        say(
            out,
            b"Where n is never 0, (\"A\" & \"A\"{n - 1})* matches what\n\
            (\"A\"{n})* would match. ",
        );
    }
    say(
        out,
        b"Else take this sign away, or let a pass begin with a\n\
        field that is always there: both may change the frames. eod cannot be\n\
        repeated, and a switch only with a default.\n",
    );
}

pub fn weight(out: Stdout) {
    say(
        out,
        b",\n\
        and at most 65535 is allowed, so that no frame takes too many steps. A\n\
        field weighs 1; a use of a rule 1 more than the rule; a concatenation 1\n\
        more than its members together; an alternative or a switch 1 more than\n\
        its heaviest branch; a repetition twice what is repeated, and 1.\n\
        The heaviest rules:\n",
    );
}

pub fn change_weight(out: Stdout) {
    say(
        out,
        b"What to change: put fewer repetitions inside of each other, and use\n\
        heavy rules in fewer places.\n",
    );
}

pub fn table(out: Stdout) {
    say(
        out,
        b"The room for the table is too small. This is a fault of the program,\n\
        and not of the grammar.\n\
        What to change: nothing in the grammar. Lend at least 16384 words.\n",
    );
}
