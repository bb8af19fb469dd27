// Refusal 4: a token that cannot stand where it does.
use crate::{expected, literals, slips};
use report_codes::{begins_item, ends_item, in_field, in_set, joins, ranging};
use report_quoting::brackets::{Before, Kind, open_at};
use report_quoting::quoting::{mark, token};
use report_wording::walking::{Context, before};
use report_wording::writing::{hexadecimal, say};
use std::io::Stdout;
use text_header::Heading;
use text_header::bytes::letter;
use text_header::spans::byte_at;
use text_literals::quote;
use text_parsing::terminals::look;

fn long_name(out: Stdout) {
    say(
        out,
        b"This name has more than 32 bytes.\n\
        What to change: shorten it here and wherever it is used.\n",
    );
}

fn stray(out: Stdout, b: u8) {
    hexadecimal(out, b"This byte (hexadecimal ", b as usize, 2);
    say(out, b") means nothing in the rules.\n");
    if !slips::byte(out, b) {
        say(
            out,
            b"What to change: take it out, or put it into a comment (from # to the\n\
            line's end). Rules are plain ASCII, and quotes are \" or '.\n",
        );
    }
}

fn no_token(out: Stdout, grammar: &[u8], at: usize) {
    let b = byte_at(grammar, at);
    if quote(b) {
        literals::fault(out, grammar, at);
    } else if letter(b) {
        long_name(out);
    } else {
        stray(out, b);
    }
}

fn no_rule(out: Stdout) {
    say(
        out,
        b"The text ends here and has no rule.\n\
        What to change: write at least one rule after the empty line:\n    \
        name = expression ;\n",
    );
}

fn unfinished(out: Stdout, second: usize, last: usize) {
    say(
        out,
        b"The text ends here in the middle of a rule. A rule is written\n    \
        name = expression ;\n",
    );
    expected::told(out, None, second, last);
    say(out, b"What to change: finish the rule.\n");
}

// What an item, or a repetition of one, can end with.
fn completes(code: usize) -> bool {
    matches!(code, 63 | 42 | 43) || ends_item(code)
}

// Outside of brackets a `;` ends a rule; in front of all rules stands as much as one.
fn end(out: Stdout, grammar: &[u8], seen: Context, open: Before) {
    if seen.depth == 0 && seen.last == 59 {
        no_rule(out);
    } else if completes(seen.last) && seen.second != 59 {
        slips::ended(out, grammar, open);
    } else {
        unfinished(out, seen.second, seen.last);
    }
}

fn repetition(out: Stdout) {
    say(
        out,
        b"A repetition (?, *, + or {..}) stands after an item, and an item\n\
        takes only one. In a calculation + and * stand between two numbers.\n\
        What to change: put what is repeated in front of it; for a second\n\
        repetition put parentheses around the first, as in (\"A\"{2})?.\n",
    );
}

fn deep(out: Stdout) {
    say(
        out,
        b"Parentheses and brackets, those of uint, sint and var too, go at most 16\n\
        deep. This is the 17th.\n\
        What to change: write what stands in them as a rule of its own.\n",
    );
}

fn equals(out: Stdout) {
    say(
        out,
        b"After a rule's name comes =. A rule is written\n    \
        name = expression ;\n\
        What to change: put = here. Or is a ; one too many in front of it?\n",
    );
}

fn field(out: Stdout, code: usize, last: usize) {
    if code == 41 && last == 2 {
        say(out, b"A comma and a set are missing here.\n");
    }
    say(
        out,
        b"A field is written uint(width, set), or sint(width, set) with a sign: the\n\
        width is one number from 1 to 64, then come a comma and a set, as in\n    \
        uint(8, 0~9 | 20)     sint(8, -1)     uint(8, var(n, 1~8))\n\
        What to change: write the field so.\n",
    );
}

fn set(out: Stdout) {
    say(
        out,
        b"After the comma comes a set: numbers and ranges with | between them,\n\
        as in 1 | 5~9 | 20~, or ~ for every value. Parentheses stand only\n\
        after !, as in ~ ! (1 | 2).\n\
        What to change: write the set so.\n",
    );
}

fn range(out: Stdout) {
    say(
        out,
        b"A range goes from one literal of a single character to another, as\n\
        in 'a'~'z'.\n\
        What to change: put a single character on each side. For numbers\n\
        write uint(8, 1~5).\n",
    );
}

fn switch(out: Stdout) {
    say(
        out,
        b"A switch begins with a case that has a condition; the default, which\n\
        has none, comes last:\n    \
        [n = 1: \"A\"; n = 2: \"B\"; : \"C\";]\n\
        What to change: write the switch so.\n",
    );
}

fn mixed(out: Stdout) {
    say(
        out,
        b"Comparisons are joined all by & or all by |. A set takes only |, and\n\
        counts {..} neither.\n\
        What to change: put parentheses around one group of comparisons, as\n\
        in [n = 1 | (n > 3 & n < 9): \"A\";].\n",
    );
}

fn number(out: Stdout) {
    say(
        out,
        b"A number stands only in a uint or sint, in counts {..} and in conditions.\n\
        What to change: write the text in quotes, as in \"5\" (byte 35), or a\n\
        field, as in uint(8, 5) (byte 05).\n",
    );
}

fn item(out: Stdout) {
    say(
        out,
        b"What to change: put & (then) or | (or) between two items; between two\n\
        numbers | or the sign of a calculation. Or is the ; of the rule before\n\
        it missing? Every rule is name = expression ;.\n",
    );
}

fn call(out: Stdout) {
    say(
        out,
        b"No ( comes after a name. Only uint(..) and sint(..) are written so, and\n\
        var(..) right after their comma.\n\
        What to change: is uint, sint or var misspelt? Or is & (then) or | (or)\n\
        missing in front of the ( ?\n",
    );
}

fn rule_start(out: Stdout, code: usize) {
    say(
        out,
        b"The name of a rule must stand here. A rule is written\n    \
        name = expression ;\n",
    );
    if code == 59 {
        say(
            out,
            b"What to change: this ; is one too many; take it out.\n",
        );
    } else {
        say(
            out,
            b"What to change: is a ; one too many in front of it?\n",
        );
    }
}

fn sign(out: Stdout) {
    say(
        out,
        b"What to change: look at what stands in front of it: something is\n\
        missing there, or is one too many. Is each ( [ { closed, and in its\n\
        own rule? Every rule is name = expression ;.\n",
    );
}

fn general(out: Stdout, code: usize, last: usize) {
    if mark(code) {
        repetition(out);
    } else if joins(code) && ends_item(last) {
        mixed(out);
    } else if code == 40 && last == 1 {
        call(out);
    } else if begins_item(code) && ends_item(last) {
        item(out);
    } else if code == 2 {
        number(out);
    } else {
        sign(out);
    }
}

fn misplaced(out: Stdout, code: usize, seen: Context) {
    if ranging(code, seen.last) {
        range(out);
    } else if in_field(seen.third, seen.second, seen.last) {
        field(out, code, seen.last);
    } else if in_set(seen.second, seen.last) {
        set(out);
    } else if seen.last == 91 {
        switch(out);
    } else {
        general(out, code, seen.last);
    }
}

// Outside of brackets a token comes after a `;`, or after that and a name.
fn opened(out: Stdout, code: usize, seen: Context) {
    let is_outside = seen.depth == 0;
    if 16 <= seen.depth && matches!(code, 40 | 91) {
        deep(out);
    } else if is_outside && seen.last == 59 {
        rule_start(out, code);
    } else if is_outside && seen.second == 59 && seen.last == 1 {
        equals(out);
    } else {
        misplaced(out, code, seen);
    }
}

// What can stand there, and what is wrong.
fn not_a_slip(out: Stdout, code: usize, seen: Context, kind: Option<Kind>) {
    if seen.depth < 16 && seen.second != 59 && seen.last != 59 {
        expected::told(out, kind, seen.second, seen.last);
    }
    opened(out, code, seen);
}

fn kind_of(open: Before) -> Option<Kind> {
    match open.innermost {
        Some(bracket) => Some(bracket.kind),
        None => None,
    }
}

fn standing(
    out: Stdout,
    grammar: &[u8],
    at: usize,
    code: usize,
    next: usize,
    seen: Context,
    open: Before,
) {
    if code == 5 {
        end(out, grammar, seen, open);
        return;
    }
    say(out, b"This cannot stand here:  ");
    token(out, grammar, at);
    say(out, b"\n");
    if !slips::told(out, grammar, open, seen.last, code, next) {
        not_a_slip(out, code, seen, kind_of(open));
    }
}

fn wrong_at(out: Stdout, grammar: &[u8], base: usize, at: usize) {
    let terminal = look(grammar, at);
    if terminal.code == 4 {
        no_token(out, grammar, at);
        return;
    }
    standing(
        out,
        grammar,
        at,
        terminal.code,
        look(grammar, terminal.end).code,
        before(grammar, base, at),
        open_at(grammar, base, at),
    );
}

pub fn wrong(out: Stdout, grammar: &[u8], at: usize) {
    match text_header::header::header(grammar) {
        Heading::Rules(base) => wrong_at(out, grammar, base, at),
        Heading::Wrong(_) => {}
    }
}
