// Where the names of rules and variables stand in an admitted text.
use report_quoting::quoting::{Part, end_of};
use text_header::Heading;
use text_parsing::terminals::look;

// The name of the rule after the one whose name stands at `at`: behind `name = expression ;`.
fn next_rule(grammar: &[u8], at: usize) -> usize {
    let name = look(grammar, at);
    let equal = look(grammar, name.end);
    let semicolon = look(grammar, end_of(grammar, equal.end, Part::Whole));
    look(grammar, semicolon.end).start
}

fn rules_from(grammar: &[u8], base: usize, rules: &mut [usize]) {
    let mut at = look(grammar, base).start;
    for name in rules.iter_mut().take(64) {
        *name = at;
        at = next_rule(grammar, at);
    }
}

// The names of all rules, in their order. Past the last rule stands the text's end.
pub fn rules(grammar: &[u8], rules: &mut [usize]) {
    match text_header::header::header(grammar) {
        Heading::Rules(base) => rules_from(grammar, base, rules),
        Heading::Wrong(_) => {}
    }
}

// The name that the uint or sint at `at` binds: behind `uint ( width , var (`.
pub fn bound(grammar: &[u8], at: usize) -> usize {
    let mut here = at;
    for _n in 0..6 {
        here = look(grammar, here).end;
    }
    look(grammar, here).start
}
