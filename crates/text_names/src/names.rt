// Names at places, and what is wrong with them.
ghost use Rattle.std.specs.Prelude.{◌≡◌, true, ◌≤◌, length};
ghost use Rattle.text_store.specs.Words.{nodes_room, rules_room};
ghost use Rattle.text_names.specs.Names.{name_at, same_name, is_reserved, rule_named, binds as bindsOf, bound_between, rule_fault, use_fault, holds as holds_of, held as held_of, held_between, is_misplaced, binder_fault, variable_fault};

use text_header::Class;
use text_header::spans::{span, spells};
use text_store::words::{binder, node_word, rule_word};
use text_store::{BOUND_AT, HOW_BOUND, KIND, NAMED_AT, SIZE};
use text_tokens::names::reserved;

fn name_at(text: &[u8], p: usize) -> &[u8]
    ensures { result.now ≡ name_at text.now p }
{
    if text.len() < p {
        return &text[0..0];
    }
    let end = span(Class::Name, text, p);
    &text[p..end]
}

#[tactic(auto, unfolding(crate::specs::Names::same_name))]
pub fn same(text: &[u8], p: usize, q: usize) -> bool
    ensures { result ≡ same_name text.now p q }
{
    spells(false, name_at(text, p), name_at(text, q))
}

#[tactic(auto, unfolding(crate::specs::Names::is_reserved))]
fn reserved_at(text: &[u8], p: usize) -> bool
    ensures { result ≡ is_reserved text.now p }
{
    reserved(name_at(text, p)) != 0
}

// Whether one of the first `count` rules has the name at p.
fn named(text: &[u8], rules: &[usize], count: usize, p: usize) -> bool
    requires { length rules.now ≡ rules_room }
    ensures { result ≡ rule_named text.now rules.now count p }
{
    for j in 0..count {
        if same(text, rule_word(rules, j, NAMED_AT), p) {
            return true;
        }
    }
    false
}

pub fn binds(text: &[u8], nodes: &[usize], p: usize, j: usize) -> bool
    requires { length nodes.now ≡ nodes_room }
    ensures { result ≡ bindsOf text.now nodes.now p j }
{
    binder(nodes, j) && same(text, node_word(nodes, j, BOUND_AT), p)
}

// Whether one of the nodes from a up to e binds the name at p.
fn bound(text: &[u8], nodes: &[usize], a: usize, e: usize, p: usize) -> bool
    requires { length nodes.now ≡ nodes_room }
    ensures { result ≡ bound_between text.now nodes.now a e p }
{
    for j in a..e {
        if binds(text, nodes, p, j) {
            return true;
        }
    }
    false
}

pub fn rule_fault(text: &[u8], rules: &[usize], k: usize) -> bool
    requires { length rules.now ≡ rules_room }
    ensures { result ≡ rule_fault text.now rules.now k }
{
    let p = rule_word(rules, k, NAMED_AT);
    reserved_at(text, p) || named(text, rules, k, p)
}

pub fn use_fault(
    text: &[u8],
    nodes: &[usize],
    rules: &[usize],
    count: usize,
    a: usize,
    e: usize,
    p: usize,
) -> bool
    requires { (length nodes.now ≡ nodes_room) × (length rules.now ≡ rules_room) }
    ensures { result ≡ use_fault text.now nodes.now rules.now count a e p }
{
    reserved_at(text, p) || !named(text, rules, count, p) || bound(text, nodes, a, e, p)
}

fn held(nodes: &[usize], a: usize, i: usize, j: usize) -> bool
    requires { (length nodes.now ≡ nodes_room) × (j ≤ i) }
    ensures { result ≡ held_of nodes.now a i j }
{
    i - j < node_word(nodes, j, SIZE) && !(j == a && node_word(nodes, a, KIND) == 2)
}

// Whether a node from a up to i, but for the rule's top concatenation, holds node i.
fn held_between(nodes: &[usize], a: usize, i: usize) -> bool
    requires { length nodes.now ≡ nodes_room }
    ensures { result ≡ held_between nodes.now a i }
{
    for j in a..i {
        if held(nodes, a, i, j) {
            return true;
        }
    }
    false
}

fn misplaced(nodes: &[usize], a: usize, i: usize) -> bool
    requires { length nodes.now ≡ nodes_room }
    ensures { result ≡ is_misplaced nodes.now a i }
{
    node_word(nodes, i, HOW_BOUND) != 1 || held_between(nodes, a, i)
}

pub fn binder_fault(text: &[u8], nodes: &[usize], a: usize, i: usize, p: usize) -> bool
    requires { length nodes.now ≡ nodes_room }
    ensures { result ≡ binder_fault text.now nodes.now a i p }
{
    reserved_at(text, p) || bound(text, nodes, a, i, p) || misplaced(nodes, a, i)
}

pub fn variable_fault(text: &[u8], nodes: &[usize], a: usize, i: usize, p: usize) -> bool
    requires { length nodes.now ≡ nodes_room }
    ensures { result ≡ variable_fault text.now nodes.now a i p }
{
    reserved_at(text, p) || !bound(text, nodes, a, i, p)
}
