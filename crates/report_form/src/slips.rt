// Refusal 4: slips that are often made, by name.
use report_quoting::brackets::{Before, Bracket, Kind};
use report_wording::lines;
use report_wording::writing::say;
use std::io::Stdout;

fn equals(out: Stdout) {
    say(
        out,
        b"= is written once, in conditions too: [n = 1: \"A\";].\n\
        What to change: take one = away.\n",
    );
}

fn comma(out: Stdout) {
    say(
        out,
        b"Counts have no comma.\n\
        What to change: from 2 to 3 times is {2~3}, from 2 times on {2~}.\n",
    );
}

fn calculation(out: Stdout) {
    say(
        out,
        b"A calculation has no parentheses.\n\
        What to change: multiply them out: 2 * n - 2 for (n - 1) * 2. * comes\n\
        before + and -.\n",
    );
}

fn dash(out: Stdout) {
    say(
        out,
        b"A range of characters is written with ~.\n\
        What to change: 'a'~'z' for 'a'-'z'.\n",
    );
}

fn both_in_set(out: Stdout) {
    say(
        out,
        b"In a set the items stand with | between them: a value is one of them.\n\
        What to change: | for &. All of 1 to 9 but 5 is 1~9 ! 5.\n",
    );
}

fn comma_in_set(out: Stdout) {
    say(
        out,
        b"In a set the items stand with | between them.\n\
        What to change: | for the comma: uint(8, 1 | 2 | 5~9).\n",
    );
}

fn literal_in_formula(out: Stdout) {
    say(
        out,
        b"Sets, counts and conditions have numbers, no characters.\n\
        What to change: write the character's number: 0x41 for \"A\"; or outside\n\
        of uint the literal itself, or a range as 'a'~'z'.\n",
    );
}

fn semicolon(out: Stdout, grammar: &[u8], end: usize) {
    say(out, b"The rule before it has no ; at its end:\n");
    lines::shown(out, grammar, end);
    say(
        out,
        b"What to change: put the ; there. Every rule is name = expression ;.\n",
    );
}

fn open_group(out: Stdout, grammar: &[u8], place: usize) {
    say(
        out,
        b"A ) is missing in front of this ;. The ( that is not closed:\n",
    );
    lines::shown(out, grammar, place);
    say(
        out,
        b"What to change: close the group, or take its ( away.\n",
    );
}

fn unfinished(out: Stdout, grammar: &[u8], end: usize) {
    say(out, b"The last rule has no ; at its end:\n");
    lines::shown(out, grammar, end);
    say(out, b"What to change: put the ; there.\n");
}

fn unclosed(out: Stdout, grammar: &[u8], place: usize, sign: &[u8]) {
    say(out, b"The text ends here, and a ");
    say(out, sign);
    say(out, b" is missing. The bracket that is not closed:\n");
    lines::shown(out, grammar, place);
    say(
        out,
        b"What to change: close the bracket, and end the rule with ;.\n",
    );
}

fn open_case(out: Stdout, grammar: &[u8], place: usize) {
    say(
        out,
        b"The text ends here in a switch: the ; of its case and its ] are missing.\n\
        The switch begins here:\n",
    );
    lines::shown(out, grammar, place);
    say(
        out,
        b"What to change: put them there, and end the rule with ;.\n",
    );
}

fn literal(code: usize) -> bool {
    code == 3 || code == 9
}

// In a set, where an item ends; whether there was something to say.
fn in_set(out: Stdout, last: usize, code: usize) -> bool {
    let is_behind = last == 2 || last == 1;
    if code == 38 && is_behind {
        both_in_set(out);
    } else if literal(code) {
        literal_in_formula(out);
    } else if code == 44 && is_behind {
        comma_in_set(out);
    } else {
        return false;
    }
    true
}

fn in_counts(out: Stdout, code: usize) -> bool {
    if code == 44 {
        comma(out);
    } else if code == 40 {
        calculation(out);
    } else if literal(code) {
        literal_in_formula(out);
    } else {
        return false;
    }
    true
}

// Whether the token with this code, after one with the code `last`, is such a slip, which is then said. `next` is the code after it.
pub fn told(
    out: Stdout,
    grammar: &[u8],
    before: Before,
    last: usize,
    code: usize,
    next: usize,
) -> bool {
    if code == 61 && last == 61 {
        equals(out);
        return true;
    }
    if code == 45 && literal(last) {
        dash(out);
        return true;
    }
    match before.innermost {
        None if code == 1 && next == 61 && last != 59 => {
            semicolon(out, grammar, before.end);
            true
        }
        None => false,
        Some(bracket) => in_bracket(out, grammar, bracket, last, code),
    }
}

fn in_bracket(out: Stdout, grammar: &[u8], bracket: Bracket, last: usize, code: usize) -> bool {
    match bracket.kind {
        Kind::Group if code == 59 && item_end(last) => {
            open_group(out, grammar, bracket.place);
            true
        }
        Kind::Field | Kind::Variable | Kind::Formula => in_set(out, last, code),
        Kind::Counts => in_counts(out, code),
        Kind::Group | Kind::Switch | Kind::Case => false,
    }
}

// A name, a literal, eod, a closing bracket, a sign of repetition.
fn item_end(code: usize) -> bool {
    literal(code) || matches!(code, 1 | 7 | 41 | 93 | 125 | 63 | 42 | 43)
}

// At the text's end, after an item.
pub fn ended(out: Stdout, grammar: &[u8], before: Before) {
    let Some(Bracket { kind, place }) = before.innermost else {
        unfinished(out, grammar, before.end);
        return;
    };
    match kind {
        Kind::Switch => unclosed(out, grammar, place, b"]"),
        Kind::Case => open_case(out, grammar, place),
        Kind::Counts => unclosed(out, grammar, place, b"}"),
        Kind::Group | Kind::Field | Kind::Variable | Kind::Formula => {
            unclosed(out, grammar, place, b")")
        }
    }
}

fn division(out: Stdout) {
    say(
        out,
        b"There is no division.\n\
        What to change: bind the half itself: uint(8, var(n, ~)) & \"AB\"{n} has\n\
        2 * n + 1 bytes. That changes the frames where the field has the whole.\n\
        A comment goes from # to the line's end.\n",
    );
}

fn dots(out: Stdout) {
    say(
        out,
        b"A range is written with ~, not with dots.\n\
        What to change: 1~5, 'a'~'z', {2~4}.\n",
    );
}

fn quotes(out: Stdout) {
    say(
        out,
        b"Quotes are the plain \" and ', and rules are plain ASCII.\n\
        What to change: type the quotes, dashes and blanks anew; an editor may\n\
        have changed them.\n",
    );
}

// A byte that means nothing; whether it is one of those that are often meant for something.
pub fn byte(out: Stdout, b: u8) -> bool {
    match b {
        b'/' => division(out),
        b'.' => dots(out),
        128.. => quotes(out),
        _ => return false,
    }
    true
}
