// Refusal 12: what to say of a rule that is not reached, after its name and the start rule's are said.
use report_quoting::quoting::token;
use report_wording::writing::say;
use std::io::Stdout;

pub fn nothing_uses(out: Stdout) {
    say(
        out,
        b": nothing uses it.\n\
        No frame has anything of it. Often a name is misspelt where it was to be used.\n",
    );
}

pub fn used_in_vain(out: Stdout) {
    say(
        out,
        b": only\n\
        rules use it that are not reached themselves:\n",
    );
}

// A rule that is used has nearly the name at a place; its uses follow.
pub fn nearly(out: Stdout, grammar: &[u8], at: usize) {
    say(out, b", has nearly this name. Is ");
    token(out, grammar, at);
    say(out, b" meant here?\n");
}

pub fn hidden(out: Stdout) {
    say(
        out,
        b"A variable has the same name, and in its rule the name means the variable:\n",
    );
}

pub fn change(out: Stdout, used: bool) {
    if used {
        say(
            out,
            b"What to change: use it, or one of the rules that use it, in a rule that is\n\
            reached; or take away every rule that is not reached, and the frames stay the\n\
            same.\n",
        );
    } else {
        say(
            out,
            b"What to change: use it in a rule that is reached; or take it away, and the\n\
            frames stay the same.\n",
        );
    }
}

// A few words on a further rule.
pub fn brief(out: Stdout, used: bool) {
    if used {
        say(out, b"        only rules use it that are not reached\n");
    } else {
        say(out, b"        nothing uses it\n");
    }
}
