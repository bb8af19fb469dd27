// Items of an expression that hold no expression, and repetition marks.
ghost use Rattle.std.specs.Prelude.{◌≡◌, cond, List, [], ◌∷◌, ℕ, ◌+◌, ◌-◌, ◌<◌, eqb, MatchOption};
ghost use Rattle.basis.specs.Limits.{max_constructs};
ghost use Rattle.text_store.specs.Store.{counted, put_node};
ghost use Rattle.text_parsing.specs.Form.{mark_of, chained as chainedOf};
ghost use Rattle.text_parsing.specs.Cursors.{terminal_at, state_at, node_more, Reads, ReadsNodes};
ghost use Rattle.text_parsing.specs.Symbols.{paren, atom, marked, character_tail, last_character, width, field_set, bound_name, field_end};

use text_formulas::sets::{counts, value_set};
use text_parsing::Cursor;
use text_parsing::reading::{failed, name, open, passed, want};
use text_parsing::words::{bind, insert_node};
use text_store::{NODES_ROOM, TERMS_ROOM};

// A node without parts, after all others.
fn leaf(c: Cursor, kind: usize, place: usize, a: usize, nodes: &mut [usize; NODES_ROOM]) -> Cursor
    ensures { (result ≡ node_more c) × (nodes.new ≡ put_node nodes.old c.nodes kind (counted max_constructs c.nodes - c.nodes) place a 0 0 0 0) }
{
    insert_node(c, c.nodes, kind, place, a, 0, 0, 0, 0, nodes)
}

fn last_character(text: &[u8], c: Cursor, p: usize, nodes: &mut [usize; NODES_ROOM]) -> Cursor
    ensures { ReadsNodes text.now (last_character p ∷ []) c nodes.old result nodes.new }
{
    if c.code == 9 {
        return passed(text, leaf(c, 7, p, c.start, nodes));
    }
    failed(c)
}

// After a literal of one character.
fn character_tail(text: &[u8], c: Cursor, p: usize, nodes: &mut [usize; NODES_ROOM]) -> Cursor
    ensures { ReadsNodes text.now (character_tail p ∷ []) c nodes.old result nodes.new }
{
    if c.code == 126 {
        return last_character(text, passed(text, c), p, nodes);
    }
    leaf(c, 6, p, 0, nodes)
}

// The `)` of `uint(`.
fn field_end(
    text: &[u8],
    c: Cursor,
    p: usize,
    w: usize,
    name: usize,
    how: usize,
    from: usize,
    nodes: &mut [usize; NODES_ROOM],
) -> Cursor
    ensures { ReadsNodes text.now (field_end p w name how from ∷ []) c nodes.old result nodes.new }
{
    if c.code == 41 {
        return passed(
            text,
            insert_node(c, c.nodes, 8, p, w, name, from, c.terms, how, nodes),
        );
    }
    failed(c)
}

fn outside(d: usize) -> usize
    ensures { result ≡ cond (eqb d 2) 1 2 }
{
    if d == 2 { 1 } else { 2 }
}

// After `var(`.
fn bound_name(
    text: &[u8],
    c: Cursor,
    d: usize,
    p: usize,
    w: usize,
    nodes: &mut [usize; NODES_ROOM],
    terms: &mut [usize; TERMS_ROOM],
) -> Cursor
    ensures { Reads text.now (bound_name d p w ∷ []) c nodes.old terms.old result nodes.new terms.new }
{
    if name(c.code) {
        let f = c.terms;
        let a = want(text, passed(text, bind(c)), 44);
        let b = want(text, value_set(text, a, d, terms), 41);
        return field_end(text, b, p, w, c.start, outside(d), f, nodes);
    }
    failed(c)
}

// After `uint(width,`.
fn field_set(
    text: &[u8],
    c: Cursor,
    d: usize,
    p: usize,
    w: usize,
    nodes: &mut [usize; NODES_ROOM],
    terms: &mut [usize; TERMS_ROOM],
) -> Cursor
    requires { d < 18446744073709551615 }
    ensures { Reads text.now (field_set d p w ∷ []) c nodes.old terms.old result nodes.new terms.new }
{
    if c.code == 8 {
        let r = open(text, passed(text, c), d);
        return bound_name(text, r, d + 1, p, w, nodes, terms);
    }
    let f = c.terms;
    let r = value_set(text, c, d, terms);
    field_end(text, r, p, w, 0, 0, f, nodes)
}

// After `uint`.
fn field(
    text: &[u8],
    c: Cursor,
    d: usize,
    p: usize,
    nodes: &mut [usize; NODES_ROOM],
    terms: &mut [usize; TERMS_ROOM],
) -> Cursor
    requires { d < 18446744073709551614 }
    ensures { Reads text.now (paren d ∷ width (d + 1) p ∷ []) c nodes.old terms.old result nodes.new terms.new }
{
    let w = open(text, c, d);
    let r = want(text, want(text, w, 2), 44);
    field_set(text, r, d + 1, p, w.start, nodes, terms)
}

pub fn simple(
    text: &[u8],
    c: Cursor,
    d: usize,
    nodes: &mut [usize; NODES_ROOM],
    terms: &mut [usize; TERMS_ROOM],
) -> Cursor
    requires { (d < 18446744073709551614) × (c.code ≡ 40 → ⊥) × (c.code ≡ 91 → ⊥) }
    ensures { Reads text.now (atom d ∷ []) c nodes.old terms.old result nodes.new terms.new }
{
    match c.code {
        3 => passed(text, leaf(c, 6, c.start, 0, nodes)),
        9 => character_tail(text, passed(text, c), c.start, nodes),
        6 => field(text, passed(text, c), d, c.start, nodes, terms),
        7 => passed(text, leaf(c, 9, c.start, 0, nodes)),
        code if name(code) => passed(text, leaf(c, 5, c.start, 0, nodes)),
        _ => failed(c),
    }
}

// How a repetition is written: `?`, `*`, `+`.
fn mark_of(code: usize) -> Option<usize>
    ensures { MatchOption result (mark_of code ≡ 0) (λ how. (0 < how) × (how ≡ mark_of code)) }
{
    match code {
        63 => Some(1),
        42 => Some(2),
        43 => Some(3),
        _ => None,
    }
}

// The repetition mark of the item from p on, whose first node is i, if it has one.
pub fn mark(
    text: &[u8],
    c: Cursor,
    p: usize,
    i: usize,
    nodes: &mut [usize; NODES_ROOM],
    terms: &mut [usize; TERMS_ROOM],
) -> Cursor
    ensures { Reads text.now (marked p i ∷ []) c nodes.old terms.old result nodes.new terms.new }
{
    if c.code == 123 {
        let f = c.terms;
        let r = counts(text, passed(text, c), terms);
        if r.code == 125 {
            return passed(
                text,
                insert_node(r, i, 3, p, 4, c.start, f, r.terms, 0, nodes),
            );
        }
        return failed(r);
    }
    let Some(how) = mark_of(c.code) else {
        return c;
    };
    passed(text, insert_node(c, i, 3, p, how, c.start, 0, 0, 0, nodes))
}

// A chain of parts is one node.
pub fn chained(
    c: Cursor,
    kind: usize,
    many: bool,
    p: usize,
    i: usize,
    nodes: &mut [usize; NODES_ROOM],
) -> Cursor
    ensures { (terminal_at result ≡ terminal_at c) × ((ts rs : List ℕ) → state_at result nodes.new ts rs ≡ chainedOf kind many p i (state_at c nodes.old ts rs)) }
{
    if many {
        insert_node(c, i, kind, p, 0, 0, 0, 0, 0, nodes)
    } else {
        c
    }
}
