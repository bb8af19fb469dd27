// What is wrong with a name that is not reserved (refusal 6), and how much a grammar has up to a rule (refusal 5). Places here count from the
// first byte of the rules.
ghost use Rattle.std.specs.Prelude.{◌≡◌, ◌≤◌, length};
ghost use Rattle.text_store.specs.Words.{nodes_room, rules_room};
ghost use Rattle.basis.specs.Limits.{max_rules};
ghost use Rattle.report_faults.specs.Faults.{from_base, after_if, rule_after, rule_number, rule_if, first_rule, binder_if, first_binder, names_at, node_if, node_at, use_fault, binder_fault, variable_fault, node_fault, name_fault};

use crate::Fault;
use text_names::counting::place_if;
use text_names::names::{binds, same};
use text_store::words::{binder, node_word, rule_word};
use text_store::{BOUND_AT, FIRST_NODE, KIND, LAST_NODE, NAMED_AT, PLACE, RULES_KEPT};

// A place in the whole text. No place stays none.
#[tactic(auto, unfolding(crate::specs::Faults::from_base))]
pub fn from(base: usize, p: usize) -> usize
    ensures { result ≡ from_base base p }
{
    base.saturating_add(p)
}

fn after_if(rules: &[usize], p: usize, k: usize) -> usize
    requires { length rules.now ≡ rules_room }
    ensures { result ≡ after_if rules.now p k }
{
    place_if(p < rule_word(rules, k, NAMED_AT), k)
}

// The first of `count` rules whose name stands after p.
fn rule_after(rules: &[usize], count: usize, p: usize) -> usize
    requires { length rules.now ≡ rules_room }
    ensures { result ≡ rule_after rules.now count p }
{
    let mut least = usize::MAX;
    for k in 0..count {
        least = least.min(after_if(rules, p, k));
    }
    least
}

// The rule that p lies in. Of rules past the limit only the first is kept.
pub fn rule_number(rules: &[usize], count: usize, p: usize) -> usize
    requires { length rules.now ≡ rules_room }
    ensures { (result ≡ rule_number rules.now count p) × (result ≤ max_rules) }
{
    let kept = count.min(RULES_KEPT);
    rule_after(rules, kept, p).min(kept).saturating_sub(1)
}

fn rule_if(text: &[u8], rules: &[usize], p: usize, j: usize) -> usize
    requires { length rules.now ≡ rules_room }
    ensures { result ≡ rule_if text.now rules.now p j }
{
    let q = rule_word(rules, j, NAMED_AT);
    place_if(same(text, q, p), q)
}

// The first of `count` rules that has the name at p.
pub fn first_rule(text: &[u8], rules: &[usize], count: usize, p: usize) -> usize
    requires { length rules.now ≡ rules_room }
    ensures { result ≡ first_rule text.now rules.now count p }
{
    let mut least = usize::MAX;
    for j in 0..count {
        least = least.min(rule_if(text, rules, p, j));
    }
    least
}

fn binder_if(text: &[u8], nodes: &[usize], p: usize, j: usize) -> usize
    requires { length nodes.now ≡ nodes_room }
    ensures { result ≡ binder_if text.now nodes.now p j }
{
    place_if(binds(text, nodes, p, j), node_word(nodes, j, BOUND_AT))
}

// Where the name at p is first bound by the nodes from a up to e.
fn first_binder(text: &[u8], nodes: &[usize], a: usize, e: usize, p: usize) -> usize
    requires { length nodes.now ≡ nodes_room }
    ensures { result ≡ first_binder text.now nodes.now a e p }
{
    let mut least = usize::MAX;
    for j in a..e {
        least = least.min(binder_if(text, nodes, p, j));
    }
    least
}

// Whether node j uses the rule whose name stands at p, or binds that name.
#[tactic(auto, unfolding(crate::specs::Faults::names_at))]
fn names_at(nodes: &[usize], p: usize, j: usize) -> bool
    requires { length nodes.now ≡ nodes_room }
    ensures { result ≡ names_at nodes.now p j }
{
    (node_word(nodes, j, KIND) == 5 && node_word(nodes, j, PLACE) == p)
        || (binder(nodes, j) && node_word(nodes, j, BOUND_AT) == p)
}

fn node_if(nodes: &[usize], p: usize, j: usize) -> usize
    requires { length nodes.now ≡ nodes_room }
    ensures { result ≡ node_if nodes.now p j }
{
    place_if(names_at(nodes, p, j), j)
}

// The node whose name stands at p.
fn node_at(nodes: &[usize], a: usize, e: usize, p: usize) -> usize
    requires { length nodes.now ≡ nodes_room }
    ensures { result ≡ node_at nodes.now a e p }
{
    let mut least = usize::MAX;
    for j in a..e {
        least = least.min(node_if(nodes, p, j));
    }
    least
}

// A rule's name is expected; a variable of that name is bound at v.
#[tactic(auto, unfolding(crate::specs::Faults::use_fault))]
fn use_fault(base: usize, v: usize) -> Fault
    ensures { result ≡ use_fault base v }
{
    if v < usize::MAX {
        return Fault::Variable(from(base, v));
    }
    Fault::NoRule
}

// A binder; the name is bound before it at v.
#[tactic(auto, unfolding(crate::specs::Faults::binder_fault))]
fn binder_fault(base: usize, v: usize) -> Fault
    ensures { result ≡ binder_fault base v }
{
    if v < usize::MAX {
        return Fault::Twice(from(base, v));
    }
    Fault::Misplaced
}

// A variable is expected; it is bound in its rule at v, a rule has its name at q, it is bound anywhere at w.
#[tactic(auto, unfolding(crate::specs::Faults::variable_fault))]
fn variable_fault(base: usize, v: usize, q: usize, w: usize) -> Fault
    ensures { result ≡ variable_fault base v q w }
{
    if v < usize::MAX {
        return Fault::Later(from(base, v));
    }
    if q < usize::MAX {
        return Fault::Rule(from(base, q));
    }
    if w < usize::MAX {
        return Fault::Elsewhere(from(base, w));
    }
    Fault::NoVariable
}

// The name of node i, in a rule whose nodes go from a up to e.
#[tactic(auto, unfolding(crate::specs::Faults::node_fault))]
fn node_fault(
    text: &[u8],
    nodes: &[usize],
    base: usize,
    a: usize,
    e: usize,
    i: usize,
    p: usize,
) -> Fault
    requires { length nodes.now ≡ nodes_room }
    ensures { result ≡ node_fault text.now nodes.now base a e i p }
{
    if node_word(nodes, i, KIND) == 5 {
        return use_fault(base, first_binder(text, nodes, a, e, p));
    }
    binder_fault(base, first_binder(text, nodes, a, i, p))
}

// The name at p, of `count` rules and `constructs` nodes.
#[tactic(auto, unfolding(crate::specs::Faults::fault_in))]
pub fn name_fault(
    text: &[u8],
    nodes: &[usize],
    rules: &[usize],
    base: usize,
    constructs: usize,
    count: usize,
    p: usize,
) -> Fault
    requires { (length nodes.now ≡ nodes_room) × (length rules.now ≡ rules_room) }
    ensures { result ≡ name_fault text.now nodes.now rules.now base constructs count p }
{
    let k = rule_number(rules, count, p);
    let a = rule_word(rules, k, FIRST_NODE);
    let e = rule_word(rules, k, LAST_NODE);
    let i = node_at(nodes, a, e, p);
    if rule_word(rules, k, NAMED_AT) == p {
        return Fault::Double(from(base, first_rule(text, rules, k, p)));
    }
    if i < usize::MAX {
        return node_fault(text, nodes, base, a, e, i, p);
    }
    variable_fault(
        base,
        first_binder(text, nodes, a, e, p),
        first_rule(text, rules, count, p),
        first_binder(text, nodes, 0, constructs, p),
    )
}
