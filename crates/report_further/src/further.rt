// The names at fault from a place on. Places count from the first byte of the rules.
ghost use Rattle.std.specs.Prelude.{◌≡◌, length};
ghost use Rattle.text_names.specs.Names.{name_place, term_place};
ghost use Rattle.text_store.specs.Words.{nodes_room, terms_room, rules_room};
ghost use Rattle.report_further.specs.Further.{not_before, term_from, list_from, node_from, nodes_from, rule_from, next_fault};

use text_names::counting::place_if;
use text_names::names::{binder_fault, rule_fault, use_fault, variable_fault};
use text_store::words::{binder, node_word, rule_word, term_word, variable};
use text_store::{
    BOUND_AT, CONDITION_END, CONDITION_FROM, FIRST_NODE, KIND, LAST_NODE, NAMED_AT, OWN_END,
    OWN_FROM, PLACE, TAG, TERM_PLACE,
};

// A place that does not come before `start`.
fn not_before(start: usize, p: usize) -> usize
    ensures { result ≡ not_before start p }
{
    place_if(start <= p, p)
}

fn name_place(
    text: &[u8],
    nodes: &[usize],
    rules: &[usize],
    count: usize,
    a: usize,
    e: usize,
    i: usize,
) -> usize
    requires { (length nodes.now ≡ nodes_room) × (length rules.now ≡ rules_room) }
    ensures { result ≡ name_place text.now nodes.now rules.now count a e i }
{
    if node_word(nodes, i, KIND) == 5 {
        let p = node_word(nodes, i, PLACE);
        return place_if(use_fault(text, nodes, rules, count, a, e, p), p);
    }
    if binder(nodes, i) {
        let p = node_word(nodes, i, BOUND_AT);
        return place_if(binder_fault(text, nodes, a, i, p), p);
    }
    usize::MAX
}

fn term_place(text: &[u8], nodes: &[usize], terms: &[usize], a: usize, i: usize, t: usize) -> usize
    requires { (length nodes.now ≡ nodes_room) × (length terms.now ≡ terms_room) }
    ensures { result ≡ term_place text.now nodes.now terms.now a i t }
{
    let p = term_word(terms, t, TERM_PLACE);
    place_if(
        variable(term_word(terms, t, TAG)) && variable_fault(text, nodes, a, i, p),
        p,
    )
}

fn term_from(
    text: &[u8],
    nodes: &[usize],
    terms: &[usize],
    start: usize,
    a: usize,
    i: usize,
    t: usize,
) -> usize
    requires { (length nodes.now ≡ nodes_room) × (length terms.now ≡ terms_room) }
    ensures { result ≡ term_from start text.now nodes.now terms.now a i t }
{
    not_before(start, term_place(text, nodes, terms, a, i, t))
}

// The terms from f up to g, of node i.
fn list_from(
    text: &[u8],
    nodes: &[usize],
    terms: &[usize],
    start: usize,
    a: usize,
    i: usize,
    f: usize,
    g: usize,
) -> usize
    requires { (length nodes.now ≡ nodes_room) × (length terms.now ≡ terms_room) }
    ensures { result ≡ list_from start text.now nodes.now terms.now a i f g }
{
    let mut least = usize::MAX;
    for t in f..g {
        least = least.min(term_from(text, nodes, terms, start, a, i, t));
    }
    least
}

fn node_from(
    text: &[u8],
    nodes: &[usize],
    terms: &[usize],
    rules: &[usize],
    start: usize,
    count: usize,
    a: usize,
    e: usize,
    i: usize,
) -> usize
    requires { (length nodes.now ≡ nodes_room) × (length terms.now ≡ terms_room) × (length rules.now ≡ rules_room) }
    ensures { result ≡ node_from start text.now nodes.now terms.now rules.now count a e i }
{
    let own = not_before(start, name_place(text, nodes, rules, count, a, e, i));
    let tested = list_from(
        text,
        nodes,
        terms,
        start,
        a,
        i,
        node_word(nodes, i, CONDITION_FROM),
        node_word(nodes, i, CONDITION_END),
    );
    let listed = list_from(
        text,
        nodes,
        terms,
        start,
        a,
        i,
        node_word(nodes, i, OWN_FROM),
        node_word(nodes, i, OWN_END),
    );
    own.min(tested.min(listed))
}

// The nodes of a rule.
fn nodes_from(
    text: &[u8],
    nodes: &[usize],
    terms: &[usize],
    rules: &[usize],
    start: usize,
    count: usize,
    a: usize,
    e: usize,
) -> usize
    requires { (length nodes.now ≡ nodes_room) × (length terms.now ≡ terms_room) × (length rules.now ≡ rules_room) }
    ensures { result ≡ nodes_from start text.now nodes.now terms.now rules.now count a e }
{
    let mut least = usize::MAX;
    for i in a..e {
        least = least.min(node_from(text, nodes, terms, rules, start, count, a, e, i));
    }
    least
}

fn rule_from(
    text: &[u8],
    nodes: &[usize],
    terms: &[usize],
    rules: &[usize],
    start: usize,
    count: usize,
    k: usize,
) -> usize
    requires { (length nodes.now ≡ nodes_room) × (length terms.now ≡ terms_room) × (length rules.now ≡ rules_room) }
    ensures { result ≡ rule_from start text.now nodes.now terms.now rules.now count k }
{
    let own = not_before(
        start,
        place_if(rule_fault(text, rules, k), rule_word(rules, k, NAMED_AT)),
    );
    let inner = nodes_from(
        text,
        nodes,
        terms,
        rules,
        start,
        count,
        rule_word(rules, k, FIRST_NODE),
        rule_word(rules, k, LAST_NODE),
    );
    own.min(inner)
}

// The least place from `start` on of a name at fault, among `count` rules.
pub fn next_fault(
    text: &[u8],
    nodes: &[usize],
    terms: &[usize],
    rules: &[usize],
    start: usize,
    count: usize,
) -> usize
    requires { (length nodes.now ≡ nodes_room) × (length terms.now ≡ terms_room) × (length rules.now ≡ rules_room) }
    ensures { result ≡ next_fault start text.now nodes.now terms.now rules.now count }
{
    let mut least = usize::MAX;
    for k in 0..count {
        least = least.min(rule_from(text, nodes, terms, rules, start, count, k));
    }
    least
}
