// Refusal 6: the least place of a name at fault.
ghost use Rattle.std.specs.Prelude.{◌≡◌, length};
ghost use Rattle.text_store.specs.Words.{nodes_room, terms_room, rules_room};
ghost use Rattle.text_names.specs.Names.{name_place, term_place, list_place, node_place, nodes_place, rule_place, refusal_6};

use crate::counting::{min, place_if};
use crate::names::{binder_fault, rule_fault, use_fault, variable_fault};
use text_store::words::{binder, node_word, rule_word, term_word, variable};
use text_store::{
    BOUND_AT, CONDITION_END, CONDITION_FROM, FIRST_NODE, KIND, LAST_NODE, NAMED_AT, OWN_END,
    OWN_FROM, PLACE, TAG, TERM_PLACE,
};

fn name_place(
    text: &[u8],
    nodes: &[usize],
    rules: &[usize],
    count: usize,
    a: usize,
    e: usize,
    i: usize,
) -> usize
    requires { (length nodes.now ≡ nodes_room) × (length rules.now ≡ rules_room) }
    ensures { result ≡ name_place text.now nodes.now rules.now count a e i }
{
    if node_word(nodes, i, KIND) == 5 {
        let p = node_word(nodes, i, PLACE);
        return place_if(use_fault(text, nodes, rules, count, a, e, p), p);
    }
    if binder(nodes, i) {
        let p = node_word(nodes, i, BOUND_AT);
        return place_if(binder_fault(text, nodes, a, i, p), p);
    }
    18446744073709551615
}

fn term_place(text: &[u8], nodes: &[usize], terms: &[usize], a: usize, i: usize, t: usize) -> usize
    requires { (length nodes.now ≡ nodes_room) × (length terms.now ≡ terms_room) }
    ensures { result ≡ term_place text.now nodes.now terms.now a i t }
{
    let p = term_word(terms, t, TERM_PLACE);
    place_if(
        variable(term_word(terms, t, TAG)) && variable_fault(text, nodes, a, i, p),
        p,
    )
}

// The terms from f up to g, of node i.
fn list_place(
    text: &[u8],
    nodes: &[usize],
    terms: &[usize],
    a: usize,
    i: usize,
    f: usize,
    g: usize,
) -> usize
    requires { (length nodes.now ≡ nodes_room) × (length terms.now ≡ terms_room) }
    ensures { result ≡ list_place text.now nodes.now terms.now a i f g }
{
    let mut least = 18446744073709551615;
    for t in f..g {
        least = min(least, term_place(text, nodes, terms, a, i, t));
    }
    least
}

fn node_place(
    text: &[u8],
    nodes: &[usize],
    terms: &[usize],
    rules: &[usize],
    count: usize,
    a: usize,
    e: usize,
    i: usize,
) -> usize
    requires { (length nodes.now ≡ nodes_room) × (length terms.now ≡ terms_room) × (length rules.now ≡ rules_room) }
    ensures { result ≡ node_place text.now nodes.now terms.now rules.now count a e i }
{
    let own = name_place(text, nodes, rules, count, a, e, i);
    let tested = list_place(
        text,
        nodes,
        terms,
        a,
        i,
        node_word(nodes, i, CONDITION_FROM),
        node_word(nodes, i, CONDITION_END),
    );
    let listed = list_place(
        text,
        nodes,
        terms,
        a,
        i,
        node_word(nodes, i, OWN_FROM),
        node_word(nodes, i, OWN_END),
    );
    min(own, min(tested, listed))
}

// The nodes of a rule.
fn nodes_place(
    text: &[u8],
    nodes: &[usize],
    terms: &[usize],
    rules: &[usize],
    count: usize,
    a: usize,
    e: usize,
) -> usize
    requires { (length nodes.now ≡ nodes_room) × (length terms.now ≡ terms_room) × (length rules.now ≡ rules_room) }
    ensures { result ≡ nodes_place text.now nodes.now terms.now rules.now count a e }
{
    let mut least = 18446744073709551615;
    for i in a..e {
        least = min(least, node_place(text, nodes, terms, rules, count, a, e, i));
    }
    least
}

fn rule_place(
    text: &[u8],
    nodes: &[usize],
    terms: &[usize],
    rules: &[usize],
    count: usize,
    k: usize,
) -> usize
    requires { (length nodes.now ≡ nodes_room) × (length terms.now ≡ terms_room) × (length rules.now ≡ rules_room) }
    ensures { result ≡ rule_place text.now nodes.now terms.now rules.now count k }
{
    let own = place_if(rule_fault(text, rules, k), rule_word(rules, k, NAMED_AT));
    let inner = nodes_place(
        text,
        nodes,
        terms,
        rules,
        count,
        rule_word(rules, k, FIRST_NODE),
        rule_word(rules, k, LAST_NODE),
    );
    min(own, inner)
}

// The least place of a name at fault among `count` rules.
pub fn first_fault(
    text: &[u8],
    nodes: &[usize],
    terms: &[usize],
    rules: &[usize],
    count: usize,
) -> usize
    requires { (length nodes.now ≡ nodes_room) × (length terms.now ≡ terms_room) × (length rules.now ≡ rules_room) }
    ensures { result ≡ refusal_6 text.now nodes.now terms.now rules.now count }
{
    let mut least = 18446744073709551615;
    for k in 0..count {
        least = min(least, rule_place(text, nodes, terms, rules, count, k));
    }
    least
}
