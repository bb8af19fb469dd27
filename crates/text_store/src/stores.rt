// Words written into what is read.
ghost use Rattle.std.specs.Prelude.{◌≡◌, ◌-◌, ◌<◌};
ghost use Rattle.basis.specs.Limits.{max_constructs};
ghost use Rattle.text_store.specs.Store.{counted as countedOf, put_words as put-wordsOf, put_term as put-termOf, marked_tag, put_single, room, put_node as put-nodeOf, put_condition as put-conditionOf, put_rule as put-ruleOf};

use crate::{NODES_ROOM, RULES_KEPT, RULES_ROOM, TERMS_ROOM};
use basis::{MAX_CONSTRUCTS, MAX_TERMS};

pub fn counted(limit: usize, n: usize) -> usize
    requires { limit < 18446744073709551615 }
    ensures { result ≡ countedOf limit n }
{
    if n <= limit {
        return n + 1;
    }
    n
}

#[tactic(auto, unfolding(crate::specs::Store::put_term))]
pub fn put_term(
    terms: &mut [usize; TERMS_ROOM],
    t: usize,
    tag: usize,
    value: usize,
    place: usize,
    origin: usize,
)
    ensures { terms.new ≡ put-termOf terms.old t tag value place origin }
{
    if MAX_TERMS <= t {
        return;
    }
    let k = 4 * t;
    terms[k] = tag;
    terms[k + 1] = value;
    terms[k + 2] = place;
    terms[k + 3] = origin;
}

fn marked_tag(tag: usize) -> usize
    ensures { result ≡ marked_tag tag }
{
    if tag < 32 {
        return tag + 32;
    }
    tag
}

// The last term ends an item of a set.
#[tactic(auto, unfolding(crate::specs::Store::put_single))]
pub fn mark_single(t: usize, terms: &mut [usize; TERMS_ROOM])
    ensures { terms.new ≡ put_single terms.old t }
{
    if MAX_TERMS < t {
        return;
    }
    if t == 0 {
        terms[0] = marked_tag(terms[0]);
        return;
    }
    let k = 4 * (t - 1);
    terms[k] = marked_tag(terms[k]);
}

// All words from node i on move by one node.
fn make_room(i: usize, nodes: &mut [usize; NODES_ROOM])
    requires { i < max_constructs }
    ensures { nodes.new ≡ room nodes.old i }
{
    nodes.copy_within(10 * i..NODES_ROOM - 10, 10 * i + 10);
}

pub fn less(n: usize, i: usize) -> usize
    ensures { result ≡ n - i }
{
    if n < i {
        return 0;
    }
    n - i
}

// Eight words of a node from place k on.
#[tactic(auto, unfolding(crate::specs::Store::put_words))]
fn put_words(
    nodes: &mut [usize; NODES_ROOM],
    k: usize,
    kind: usize,
    size: usize,
    place: usize,
    a: usize,
    b: usize,
    f: usize,
    e: usize,
    how: usize,
)
    requires { k < 2551 }
    ensures { nodes.new ≡ put-wordsOf nodes.old k kind size place a b f e how }
{
    nodes[k] = kind;
    nodes[k + 1] = size;
    nodes[k + 2] = place;
    nodes[k + 3] = a;
    nodes[k + 4] = b;
    nodes[k + 5] = f;
    nodes[k + 6] = e;
    nodes[k + 7] = how;
    nodes[k + 8] = 0;
    nodes[k + 9] = 0;
}

pub fn put_node(
    nodes: &mut [usize; NODES_ROOM],
    i: usize,
    kind: usize,
    size: usize,
    place: usize,
    a: usize,
    b: usize,
    f: usize,
    e: usize,
    how: usize,
)
    ensures { nodes.new ≡ put-nodeOf nodes.old i kind size place a b f e how }
{
    if MAX_CONSTRUCTS <= i {
        return;
    }
    make_room(i, nodes);
    put_words(nodes, 10 * i, kind, size, place, a, b, f, e, how);
}

// The condition of the case whose body is node i.
#[tactic(auto, unfolding(crate::specs::Store::put_condition))]
pub fn put_condition(i: usize, from: usize, end: usize, nodes: &mut [usize; NODES_ROOM])
    ensures { nodes.new ≡ put-conditionOf nodes.old i from end }
{
    if MAX_CONSTRUCTS <= i {
        return;
    }
    nodes[10 * i + 8] = from;
    nodes[10 * i + 9] = end;
}

#[tactic(auto, unfolding(crate::specs::Store::put_rule))]
pub fn put_rule(
    rules: &mut [usize; RULES_ROOM],
    r: usize,
    place: usize,
    first: usize,
    nodes: usize,
    terms: usize,
    binders: usize,
)
    ensures { rules.new ≡ put-ruleOf rules.old r place first nodes terms binders }
{
    if RULES_KEPT <= r {
        return;
    }
    let k = 5 * r;
    rules[k] = place;
    rules[k + 1] = first;
    rules[k + 2] = nodes;
    rules[k + 3] = terms;
    rules[k + 4] = binders;
}
