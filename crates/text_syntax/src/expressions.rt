// Expressions, concatenations and factors call each other; at each group and switch the depth grows.
ghost use Rattle.std.specs.Prelude.{◌≡◌, not, ◌||◌, false, [], ◌∷◌, ◌≤◌, ◌<◌, eqb};
ghost use Rattle.basis.specs.Limits.{max_nesting};
ghost use Rattle.text_parsing.specs.Cursors.{left as left_of, Reads, ReadsNodes};
ghost use Rattle.text_parsing.specs.Symbols.{atom, factor as factorOf, concatenation as concatenationOf, expression as expressionOf, condition as conditionOf, colon, case_end, cases, switch_end};

use crate::fields::{chained, mark, simple};
use basis::MAX_NESTING;
use text_formulas::conditions::condition;
use text_parsing::Cursor;
use text_parsing::reading::{failed, passed, want};
use text_parsing::words::insert_node;
use text_store::stores::put_condition;
use text_store::{NODES_ROOM, TERMS_ROOM};

#[cycle(case_concatenation_ending_expression_factor_item_switch)]
pub fn expression(
    text: &[u8],
    from: Cursor,
    d: usize,
    nodes: &mut [usize; NODES_ROOM],
    terms: &mut [usize; TERMS_ROOM],
) -> Cursor
    requires { d ≤ max_nesting }
    ensures { Reads text.now (expressionOf d ∷ []) from nodes.old terms.old result nodes.new terms.new }
{
    let p = from.start;
    let i = from.nodes;
    let mut many = false;
    let mut c = concatenation(text, from, d, nodes, terms);
    while c.code == 124 {
        c = concatenation(text, passed(text, c), d, nodes, terms);
        many = true;
    }
    chained(c, 1, many, p, i, nodes)
}

#[cycle(case_concatenation_ending_expression_factor_item_switch)]
fn concatenation(
    text: &[u8],
    from: Cursor,
    d: usize,
    nodes: &mut [usize; NODES_ROOM],
    terms: &mut [usize; TERMS_ROOM],
) -> Cursor
    requires { d ≤ max_nesting }
    ensures { Reads text.now (concatenationOf d ∷ []) from nodes.old terms.old result nodes.new terms.new }
{
    let p = from.start;
    let i = from.nodes;
    let mut many = false;
    let mut c = factor(text, from, d, nodes, terms);
    while c.code == 38 {
        c = factor(text, passed(text, c), d, nodes, terms);
        many = true;
    }
    chained(c, 2, many, p, i, nodes)
}

#[cycle(case_concatenation_ending_expression_factor_item_switch)]
fn factor(
    text: &[u8],
    c: Cursor,
    d: usize,
    nodes: &mut [usize; NODES_ROOM],
    terms: &mut [usize; TERMS_ROOM],
) -> Cursor
    requires { d ≤ max_nesting }
    ensures { Reads text.now (factorOf d ∷ []) c nodes.old terms.old result nodes.new terms.new }
{
    let r = item(text, c, d, nodes, terms);
    mark(text, r, c.start, c.nodes, nodes, terms)
}

#[cycle(case_concatenation_ending_expression_factor_item_switch)]
fn item(
    text: &[u8],
    c: Cursor,
    d: usize,
    nodes: &mut [usize; NODES_ROOM],
    terms: &mut [usize; TERMS_ROOM],
) -> Cursor
    requires { d ≤ max_nesting }
    ensures { Reads text.now (atom d ∷ []) c nodes.old terms.old result nodes.new terms.new }
{
    match c.code {
        40 if d < MAX_NESTING => {
            let r = expression(text, passed(text, c), d + 1, nodes, terms);
            want(text, r, 41)
        }
        91 if d < MAX_NESTING => {
            switch(text, passed(text, c), d + 1, c.start, c.nodes, nodes, terms)
        }
        40 | 91 => failed(c),
        _ => simple(text, c, d, nodes, terms),
    }
}

// The `;` of a case.
fn case_end(
    text: &[u8],
    c: Cursor,
    i: usize,
    from: usize,
    end: usize,
    nodes: &mut [usize; NODES_ROOM],
) -> Cursor
    ensures { ReadsNodes text.now (case_end i from end ∷ []) c nodes.old result nodes.new }
{
    put_condition(i, from, end, nodes);
    want(text, c, 59)
}

#[cycle(case_concatenation_ending_expression_factor_item_switch)]
fn case(
    text: &[u8],
    c: Cursor,
    d: usize,
    nodes: &mut [usize; NODES_ROOM],
    terms: &mut [usize; TERMS_ROOM],
) -> Cursor
    requires { d ≤ max_nesting }
    ensures reads { Reads text.now (conditionOf d ∷ colon d c.terms ∷ []) c nodes.old terms.old result nodes.new terms.new }
    ensures result_bound { eqb c.code 0 ≡ false → left_of text.now result < left_of text.now c }
{
    let a = condition(text, c, d, terms);
    let b = want(text, a, 58);
    let r = expression(text, b, d, nodes, terms);
    case_end(text, r, a.nodes, c.terms, a.terms, nodes)
}

fn further(code: usize) -> bool
    ensures { result ≡ not (eqb code 0 || (eqb code 58 || eqb code 93)) }
{
    !matches!(code, 0 | 58 | 93)
}

fn switch_end(text: &[u8], c: Cursor, p: usize, i: usize, nodes: &mut [usize; NODES_ROOM]) -> Cursor
    ensures { ReadsNodes text.now (switch_end p i ∷ []) c nodes.old result nodes.new }
{
    if c.code == 93 {
        return passed(text, insert_node(c, i, 4, p, 0, 0, 0, 0, 0, nodes));
    }
    failed(c)
}

// The default, if there is one, and the end of a switch.
#[cycle(case_concatenation_ending_expression_factor_item_switch)]
fn ending(
    text: &[u8],
    c: Cursor,
    d: usize,
    p: usize,
    i: usize,
    nodes: &mut [usize; NODES_ROOM],
    terms: &mut [usize; TERMS_ROOM],
) -> Cursor
    requires { (d ≤ max_nesting) × (not (eqb c.code 0 || (eqb c.code 58 || eqb c.code 93)) ≡ false) }
    ensures { Reads text.now (cases d p i ∷ []) c nodes.old terms.old result nodes.new terms.new }
{
    if c.code == 58 {
        let a = expression(text, passed(text, c), d, nodes, terms);
        let r = want(text, a, 59);
        return switch_end(text, r, p, i, nodes);
    }
    switch_end(text, c, p, i, nodes)
}

// After `[`.
#[cycle(case_concatenation_ending_expression_factor_item_switch)]
fn switch(
    text: &[u8],
    from: Cursor,
    d: usize,
    p: usize,
    i: usize,
    nodes: &mut [usize; NODES_ROOM],
    terms: &mut [usize; TERMS_ROOM],
) -> Cursor
    requires { d ≤ max_nesting }
    ensures { Reads text.now (conditionOf d ∷ colon d from.terms ∷ cases d p i ∷ []) from nodes.old terms.old result nodes.new terms.new }
{
    let mut c = case(text, from, d, nodes, terms);
    while further(c.code) {
        c = case(text, c, d, nodes, terms);
    }
    ending(text, c, d, p, i, nodes, terms)
}
