// Numbers of rules, variables and terms.
ghost use Rattle.std.specs.Prelude.{◌≡◌, ℕ, ◌+◌, ◌-◌, ◌≤◌, ◌<◌, length};
ghost use Rattle.text_store.specs.Words.{nodes_room, rules_room};
ghost use Rattle.text_encoding.specs.Lists.{sum};
ghost use Rattle.text_encoding.specs.Numbers.{rule_of, first_at as first-atOf, binds_one, binders_before as binders-beforeOf, binder_of, variable_of, width_of, is_signed, condition_length as condition-lengthOf, own_length as own-lengthOf};

use text_header::spans::byte_at;
use text_names::names::{binds, same};
use text_store::words::{binder, node_word, rule_word};
use text_store::{
    CONDITION_END, CONDITION_FROM, FIRST_NODE, NAMED_AT, OWN_END, OWN_FROM, PLACE, WIDTH_PLACE,
};
use text_tokens::numbers::number_at;

// n without m, 0 where m is more.
pub fn less(n: usize, m: usize) -> usize
    ensures { result ≡ n - m }
{
    n.saturating_sub(m)
}

// The first of `count` rules with the name at p; `count` where none has it.
pub fn rule_number(text: &[u8], rules: &[usize], count: usize, p: usize) -> usize
    requires { length rules.now ≡ rules_room }
    ensures { result ≡ rule_of text.now rules.now count p }
{
    for j in 0..count {
        if same(text, rule_word(rules, j, NAMED_AT), p) {
            return j;
        }
    }
    count
}

// The first node of the rule that node i is in.
pub fn first_at(rules: &[usize], count: usize, i: usize) -> usize
    requires { length rules.now ≡ rules_room }
    ensures { (result ≡ first-atOf rules.now count i) × (result ≤ i) }
{
    for k in (0..count).rev() {
        let first = rule_word(rules, k, FIRST_NODE);
        if first <= i {
            return first;
        }
    }
    0
}

fn binds_one(nodes: &[usize], j: usize) -> usize
    requires { length nodes.now ≡ nodes_room }
    ensures { (result ≡ binds_one nodes.now j) × (result ≤ 1) }
{
    if binder(nodes, j) { 1 } else { 0 }
}

// How many binders stand before node i.
pub fn binders_before(nodes: &[usize], i: usize) -> usize
    requires { length nodes.now ≡ nodes_room }
    ensures { (result ≡ binders-beforeOf nodes.now i) × (result ≤ i) }
{
    let mut n = 0;
    for j in 0..i {
        n += binds_one(nodes, j);
    }
    n
}

// The first node from a up to i that binds the name at p; i where none does.
fn binder_of(text: &[u8], nodes: &[usize], a: usize, i: usize, p: usize) -> usize
    requires { (length nodes.now ≡ nodes_room) × (a ≤ i) }
    ensures { result ≡ binder_of text.now nodes.now a i p }
{
    for j in a..i {
        if binds(text, nodes, p, j) {
            return j;
        }
    }
    i
}

// The variable that the name at p is in node i of a rule whose first node is a.
pub fn variable_number(text: &[u8], nodes: &[usize], a: usize, i: usize, p: usize) -> usize
    requires { (length nodes.now ≡ nodes_room) × (a ≤ i) }
    ensures { result ≡ variable_of text.now nodes.now a i p }
{
    binders_before(nodes, binder_of(text, nodes, a, i, p))
}

// A uint's width, at most 65.
pub fn width(text: &[u8], nodes: &[usize], i: usize) -> usize
    requires { length nodes.now ≡ nodes_room }
    ensures { result ≡ width_of text.now nodes.now i }
{
    let p = node_word(nodes, i, WIDTH_PLACE);
    if p < text.len() {
        (number_at(text, p) as usize).min(65)
    } else {
        0
    }
}

// It is a sint and no uint.
pub fn signed(text: &[u8], nodes: &[usize], i: usize) -> bool
    requires { length nodes.now ≡ nodes_room }
    ensures { result ≡ is_signed text.now nodes.now i }
{
    byte_at(text, node_word(nodes, i, PLACE)) == b's'
}

pub fn condition_length(nodes: &[usize], i: usize) -> usize
    requires { length nodes.now ≡ nodes_room }
    ensures { result ≡ condition-lengthOf nodes.now i }
{
    node_word(nodes, i, CONDITION_END).saturating_sub(node_word(nodes, i, CONDITION_FROM))
}

pub fn own_length(nodes: &[usize], i: usize) -> usize
    requires { length nodes.now ≡ nodes_room }
    ensures { result ≡ own-lengthOf nodes.now i }
{
    node_word(nodes, i, OWN_END).saturating_sub(node_word(nodes, i, OWN_FROM))
}
