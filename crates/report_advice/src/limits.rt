// Refusal 5: each limit.
use report_wording::writing::say;
use std::io::Stdout;

pub fn rules(out: Stdout) {
    say(
        out,
        b"This is the 65th rule, and at most 64 are allowed.\n\
        What to change: take out rules that nothing uses, and write what only\n\
        one rule uses into that rule.\n",
    );
}

pub fn constructs(out: Stdout) {
    say(
        out,
        b"In this rule the 257th construct comes, and at most 256 are allowed.\n\
        Constructs are alternatives, concatenations, repetitions, switches, uses\n\
        of rules, literals, ranges, uint, sint, eod.\n\
        What to change: write what stands in several places as a rule, and\n\
        use it there; write \"AB\" for \"A\" & \"B\", and uint(8, 1 | 2) for\n\
        uint(8, 1) | uint(8, 2).\n",
    );
}

pub fn terms(out: Stdout) {
    say(
        out,
        b"In this rule the 1025th of all numbers, uses of variables and signs\n\
        (~ | ! & + - * and comparisons) in sets, counts and conditions comes,\n\
        and at most 1024 are allowed.\n\
        What to change: write 1~5 for 1 | 2 | 3 | 4 | 5, and a field that\n\
        stands in several places as a rule.\n",
    );
}

pub fn variables(out: Stdout) {
    say(
        out,
        b"In this rule the 65th variable is bound, and at most 64 are allowed.\n\
        What to change: bind only what is used: uint(8, ~) for\n\
        uint(8, var(n, ~)) where nothing uses n.\n",
    );
}
