// The words of what is read, by number.
ghost use Rattle.std.specs.Prelude.{◌≡◌, ◌<◌, length, get_or};
ghost use Rattle.text_store.specs.Words.{node_word, term_word, rule_word, is_binder, is_use, nodes_room, terms_room, rules_room};

use crate::{HOW_BOUND, KIND, RULES_KEPT};
use basis::{MAX_CONSTRUCTS, MAX_TERMS};

// A word; past the end there is none, read as 0.
fn at(words: &[usize], k: usize) -> usize
    ensures { result ≡ get_or words.now k 0 }
{
    if k < words.len() {
        return words[k];
    }
    0
}

pub fn node_word(nodes: &[usize], i: usize, k: usize) -> usize
    requires { (length nodes.now ≡ nodes_room) × (k < 10) }
    ensures { result ≡ node_word nodes.now i k }
{
    if i < MAX_CONSTRUCTS {
        return at(nodes, 10 * i + k);
    }
    0
}

pub fn term_word(terms: &[usize], t: usize, k: usize) -> usize
    requires { (length terms.now ≡ terms_room) × (k < 4) }
    ensures { result ≡ term_word terms.now t k }
{
    if t < MAX_TERMS {
        return at(terms, 4 * t + k);
    }
    0
}

pub fn rule_word(rules: &[usize], r: usize, k: usize) -> usize
    requires { (length rules.now ≡ rules_room) × (k < 5) }
    ensures { result ≡ rule_word rules.now r k }
{
    if r < RULES_KEPT {
        return at(rules, 5 * r + k);
    }
    0
}

// Whether a node is a uint that binds.
pub fn binder(nodes: &[usize], i: usize) -> bool
    requires { length nodes.now ≡ nodes_room }
    ensures { result ≡ is_binder nodes.now i }
{
    node_word(nodes, i, KIND) == 8 && node_word(nodes, i, HOW_BOUND) != 0
}

// Whether a term is a variable's use.
pub fn variable(tag: usize) -> bool
    ensures { result ≡ is_use tag }
{
    tag == 2 || tag == 34
}
