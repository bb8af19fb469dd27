// Refusal 5.
ghost use Rattle.std.specs.Prelude.{◌≡◌, length};
ghost use Rattle.text_store.specs.Words.{rules_room};
ghost use Rattle.text_names.specs.Limits.{passed_in, limit_place, refusal_5};

use crate::counting::{min, place_if};
use basis::{MAX_CONSTRUCTS, MAX_RULES, MAX_TERMS, MAX_VARIABLES};
use text_store::words::rule_word;
use text_store::{BINDERS_AT_END, LAST_NODE, NAMED_AT, TERMS_AT_END};

fn passed(rules: &[usize], k: usize) -> bool
    requires { length rules.now ≡ rules_room }
    ensures { result ≡ passed_in rules.now k }
{
    MAX_RULES <= k
        || MAX_CONSTRUCTS < rule_word(rules, k, LAST_NODE)
        || MAX_TERMS < rule_word(rules, k, TERMS_AT_END)
        || MAX_VARIABLES < rule_word(rules, k, BINDERS_AT_END)
}

fn place(rules: &[usize], k: usize) -> usize
    requires { length rules.now ≡ rules_room }
    ensures { result ≡ limit_place rules.now k }
{
    place_if(passed(rules, k), rule_word(rules, k, NAMED_AT))
}

// The place of the first rule in which a limit is passed, among `count` rules.
pub fn first_past(rules: &[usize], count: usize) -> usize
    requires { length rules.now ≡ rules_room }
    ensures { result ≡ refusal_5 rules.now count }
{
    let mut least = 18446744073709551615;
    for k in 0..count {
        least = min(least, place(rules, k));
    }
    least
}
