// A refusal in a few words.
use report_wording::writing::say;
use std::io::Stdout;

pub fn title(out: Stdout, n: usize) {
    match n {
        0 | 1 => say(out, b": the table is too small\n"),
        2 => say(out, b": the grammar is empty or too long\n"),
        3 => say(out, b": the header is wrong\n"),
        4 => say(out, b": the rules are not well formed\n"),
        5 => say(out, b": a limit is passed\n"),
        6 => say(out, b": a name is wrong\n"),
        7 => say(out, b": a rule reaches itself\n"),
        8 => say(out, b": a number is outside its limits\n"),
        9 => say(out, b": what is repeated may be empty\n"),
        11 => say(out, b": the grammar is too heavy\n"),
        12 => say(out, b": a rule is not reached\n"),
        _ => say(out, b": a field has no value\n"),
    }
}
