// What is read, counted and put into words, with the cursor.
ghost use Rattle.std.specs.Prelude.{◌≡◌, List, [], ◌∷◌, ℕ, ◌-◌};
ghost use Rattle.basis.specs.Limits.{max_constructs};
ghost use Rattle.text_store.specs.Store.{counted as countedOf, put_term as put-termOf, put_node as put-nodeOf, put_rule as put-ruleOf};
ghost use Rattle.text_parsing.specs.Symbols.{sign};
ghost use Rattle.text_parsing.specs.Cursors.{term_more, node_more, binder_more, rule_more, ReadsTerms};

use crate::Cursor;
use basis::{MAX_CONSTRUCTS, MAX_RULES, MAX_TERMS, MAX_VARIABLES};
use text_store::stores::{counted, put_node, put_rule, put_term};
use text_store::{NODES_ROOM, RULES_ROOM, TERMS_ROOM};

// One term more.
pub fn add_term(
    c: Cursor,
    tag: usize,
    value: usize,
    place: usize,
    origin: usize,
    terms: &mut [usize; TERMS_ROOM],
) -> Cursor
    ensures { (result ≡ term_more c) × (terms.new ≡ put-termOf terms.old c.terms tag value place origin) }
{
    put_term(terms, c.terms, tag, value, place, origin);
    Cursor {
        terms: counted(MAX_TERMS, c.terms),
        ..c
    }
}

// A sign after what it joins: nothing is read.
pub fn add_sign(
    c: Cursor,
    tag: usize,
    place: usize,
    origin: usize,
    terms: &mut [usize; TERMS_ROOM],
) -> Cursor
    ensures { (xs : List ℕ) → ReadsTerms xs (sign tag place origin ∷ []) c terms.old result terms.new }
{
    add_term(c, tag, 0, place, origin, terms)
}

// A node in front of node i.
pub fn insert_node(
    c: Cursor,
    i: usize,
    kind: usize,
    place: usize,
    a: usize,
    b: usize,
    f: usize,
    e: usize,
    how: usize,
    nodes: &mut [usize; NODES_ROOM],
) -> Cursor
    ensures { (result ≡ node_more c) × (nodes.new ≡ put-nodeOf nodes.old i kind (countedOf max_constructs c.nodes - i) place a b f e how) }
{
    let n = counted(MAX_CONSTRUCTS, c.nodes);
    put_node(nodes, i, kind, n.saturating_sub(i), place, a, b, f, e, how);
    Cursor { nodes: n, ..c }
}

pub fn bind(c: Cursor) -> Cursor
    ensures { result ≡ binder_more c }
{
    Cursor {
        binders: counted(MAX_VARIABLES, c.binders),
        ..c
    }
}

pub fn close_rule(c: Cursor, place: usize, first: usize, rules: &mut [usize; RULES_ROOM]) -> Cursor
    ensures { (result ≡ rule_more c) × (rules.new ≡ put-ruleOf rules.old c.rules place first c.nodes c.terms c.binders) }
{
    put_rule(rules, c.rules, place, first, c.nodes, c.terms, c.binders);
    Cursor {
        rules: counted(MAX_RULES, c.rules),
        ..c
    }
}
