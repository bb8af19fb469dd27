// Refusal 5: which limit is passed. More than one may be, in the same rule.
use report_places::{Located, Query, locate};
use std::io::Stdout;

fn told(out: Stdout, rules: usize, constructs: usize, terms: usize, variables: usize) {
    if 64 < rules {
        report_advice::limits::rules(out);
    }
    if 256 < constructs {
        report_advice::limits::constructs(out);
    }
    if 1024 < terms {
        report_advice::limits::terms(out);
    }
    if 64 < variables {
        report_advice::limits::variables(out);
    }
}

pub fn passed(out: Stdout, grammar: &[u8], at: usize) {
    match locate(grammar, Query::Rule(at)) {
        Located::Rule {
            rules,
            constructs,
            terms,
            variables,
        } => told(out, rules, constructs, terms, variables),
        _ => {}
    }
}
