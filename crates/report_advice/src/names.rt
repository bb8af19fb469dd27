// Refusal 6: what is wrong with a name, after the name itself is said.
use report_wording::writing::say;
use std::io::Stdout;

pub fn reserved(out: Stdout) {
    say(
        out,
        b" is a reserved word and cannot be a name.\n\
        What to change: choose another name, here and wherever it is used.\n\
        (A field is written uint(8, ~), or sint(8, ~) with a sign, its variable\n\
        var(name, set) inside of it, the frame's end eod.)\n",
    );
}

pub fn double(out: Stdout) {
    say(out, b" is already the name of a rule:\n");
}

pub fn change_double(out: Stdout) {
    say(
        out,
        b"What to change: give one of the two rules another name, or take one out.\n",
    );
}

pub fn no_rule(out: Stdout) {
    say(out, b" belongs to no rule.\n");
}

pub fn change_no_rule(out: Stdout) {
    say(
        out,
        b"What to change: write the rule's name as the rule itself has it, in\n\
        the same letter case; or add a rule of this name:\n    \
        name = expression ;\n",
    );
}

pub fn variable(out: Stdout) {
    say(
        out,
        b" is a variable in this rule, and a rule must stand here. It is bound at\n",
    );
}

pub fn change_variable(out: Stdout) {
    say(
        out,
        b"What to change: a variable's value is used in a set, a count or a\n\
        condition, as in \"A\"{n}. If a rule of the same name is meant, give\n\
        the variable another name: it hides the rule.\n",
    );
}

pub fn twice(out: Stdout) {
    say(
        out,
        b" is bound twice in this rule. It is already bound at\n",
    );
}

pub fn change_twice(out: Stdout) {
    say(
        out,
        b"What to change: give one of the two variables another name.\n",
    );
}

pub fn misplaced(out: Stdout) {
    say(
        out,
        b" cannot be bound here.\n\
        What to change: a field with var(..) must be a member of the rule\n\
        itself, outside of alternatives, parentheses, repetitions and\n\
        switches. What binds a variable can be a rule of its own, as in\n    \
        frame = card | mailer;\n    \
        mailer = \"M\" & uint(8, var(n, ~)) & uint(8, ~){n};\n",
    );
}

pub fn later(out: Stdout) {
    say(
        out,
        b" has no value yet here: it is a variable that is bound only at\n",
    );
}

pub fn change_later(out: Stdout) {
    say(
        out,
        b"What to change: use it in a member that comes after the field that\n\
        binds it. The field's own set cannot use it. To put the field elsewhere\n\
        may change the frames.\n",
    );
}

pub fn rule(out: Stdout) {
    say(
        out,
        b" is a rule, and a variable or a number must stand here. The rule is\n",
    );
}

pub fn elsewhere(out: Stdout) {
    say(
        out,
        b" is a variable of another rule only. It is bound at\n",
    );
}

pub fn change_elsewhere(out: Stdout) {
    say(
        out,
        b"What to change: a variable can be used only in the rule that binds\n\
        it. Bring the field that binds it and what uses it into one rule.\n",
    );
}

// What is wrong with a further name, in a few words: faults by their numbers.
pub fn brief(out: Stdout, fault: usize) {
    match fault {
        0 => say(out, b"is a reserved word\n"),
        1 => say(out, b"is the name of a rule above\n"),
        2 => say(out, b"belongs to no rule\n"),
        3 => say(
            out,
            b"is a variable of this rule, and a rule must stand here\n",
        ),
        4 => say(out, b"is bound for the second time in this rule\n"),
        5 => say(out, b"cannot be bound here\n"),
        6 => say(out, b"is used before it is bound\n"),
        7 => say(
            out,
            b"is a rule, and a variable or a number must stand here\n",
        ),
        8 => say(out, b"is a variable of another rule only\n"),
        _ => say(out, b"is no variable of this rule\n"),
    }
}

pub fn no_variable(out: Stdout) {
    say(out, b" is no variable of this rule.\n");
}

pub fn change_unbound(out: Stdout) {
    say(
        out,
        b"What to change: write the variable's name as var(..) has it, in the\n\
        same letter case; or bind it in an earlier member of this rule, as in\n    \
        uint(8, var(n, ~)) & \"A\"{n}\n",
    );
}
