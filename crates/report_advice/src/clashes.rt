// Refusal 10: what to change.
use report_wording::writing::say;
use std::io::Stdout;

pub fn ends(out: Stdout) {
    say(
        out,
        b"What to change: let only one of the two match where the frame has\n\
        nothing left. eod matches there, and so does what can be empty: ?, *\n\
        and {0~..}.\n",
    );
}

// The branches with what they begin with in front, printed after it.
pub fn in_front(out: Stdout, count: usize) {
    if count == 2 {
        say(
            out,
            b"What to change: put what both begin with in front of the two, once.\n\
            The frames stay the same. In place of the two branches write\n    ",
        );
    } else {
        say(
            out,
            b"What to change: put what they all begin with in front of them, once.\n\
            The frames stay the same. In place of these branches write\n    ",
        );
    }
}

// One branch is what both begin with.
pub fn optional(out: Stdout) {
    say(
        out,
        b"What to change: put what both begin with in front of the two, once, and let\n\
        the rest be left out. The frames stay the same. In place of the two branches\n\
        write\n    ",
    );
}

// The same, but what comes after begins as the rest does.
pub fn rest_follows(out: Stdout) {
    say(
        out,
        b"What to change: one branch is what both begin with. To put it in front and\n\
        let the rest be left out, as \"A\" & \"B\"? for \"AB\" | \"A\", does not help here:\n\
        what comes after the alternative can begin as the rest does, so that would\n\
        clash too. One of these:\n  \
        - Bring what comes after into the branches, and put in front what they then\n    \
        all begin with: \"AB\" & (\"C\" | \"BC\") for (\"A\" | \"AB\") & \"BC\". The frames\n    \
        stay the same.\n  \
        - Else the frames may have to change: the branches must differ in the next 8\n    \
        bits.\n",
    );
}

// Only the first two were written anew.
pub fn mends(out: Stdout, count: usize) {
    if count == 3 {
        say(
            out,
            b"That is for the first two; the further branch still clashes with it.\n",
        );
    }
    if 3 < count {
        say(
            out,
            b"That is for the first two; the further branches still clash with it.\n",
        );
    }
}

fn switch(out: Stdout) {
    say(
        out,
        b"  - Where a field in front says which of the two comes, bind that field where\n    \
        it stands, in the same rule and outside of parentheses, and write the\n    \
        switch in place of the alternative. The frames stay the same:\n    \
        uint(8, var(kind, ~)) & [kind = 1: \"AB\"; kind = 2: \"AC\";]\n",
    );
}

// `in_front`: a field may stand in front.
pub fn begins(out: Stdout, in_front: bool) {
    say(
        out,
        b"What to change, one of these:\n  \
        - Put what both begin with in front of the two, once. The frames stay the\n    \
        same: \"A\" & (\"B\" | \"C\") for \"AB\" | \"AC\", \"A\" & \"B\"? for \"AB\" | \"A\".\n",
    );
    if in_front {
        switch(out);
    }
    say(
        out,
        b"  - Where both match the same, take one out; where two sets overlap, take the\n    \
        shared values out of one: 'n'~'z' for 'm'~'z'.\n  \
        - Else the frames may have to change: the two must differ in the next 8 bits.\n",
    );
}

pub fn passes(out: Stdout) {
    say(
        out,
        b"What to change, one of these:\n  \
        - Where a field in front says how many passes come, bind it and use it:\n    \
        uint(8, var(n, ~)) & \"A\"{n}. If the number never varies, write {4}. The\n    \
        frames stay the same.\n  \
        - Else look for one repetition that says both: '0'~'9'{4~6} for\n    \
        '0'~'9'{2~4} & '0'~'9'{2}. Or take the shared values out of the pass:\n    \
        uint(8, ~!0x2e)* & \".\" for uint(8, ~)* & \".\". That may change the frames.\n  \
        - Or let what comes after the repetition begin with bits that no pass\n    \
        begins with, such as an end mark. That changes the frames.\n",
    );
}
