// The areas of a table, and the whole.
ghost use Rattle.std.specs.Prelude.{◌≡◌, cond, List, ℕ, ◌+◌, ◌*◌, ◌≤◌, ◌<◌, length, replicate};
ghost use Rattle.table_layout.specs.Places.{rules_at, variables_at, constructs_at, terms_at, literals_at};
ghost use Rattle.text_store.specs.Words.{nodes_room, terms_room, rules_room};
ghost use Rattle.basis.specs.Limits.{max_rules, max_constructs, max_terms, table_words};
ghost use Rattle.text_encoding.specs.Lists.{flat, written};
ghost use Rattle.text_encoding.specs.Numbers.{binders_before as binders-beforeOf, is_signed, condition_start};
ghost use Rattle.text_encoding.specs.Encoded.{header_words, rule_words, variable_words, construct_words, two_lists, lists_words, literal_words, encoded};

use crate::constructs::{construct, list, literal};
use crate::numbers::{binders_before, condition_length, first_at, own_length, signed, width};
use crate::put::{put_four, put_three};
use table_layout::{RULES_AT, VARIABLES_AT};
use text_store::words::{binder, node_word, rule_word};
use text_store::{CONDITION_FROM, FIRST_NODE, LAST_NODE, OWN_FROM};

// Where the terms of construct n begin: how many there are before it.
fn terms_before(nodes: &[usize], n: usize) -> usize
    requires { (length nodes.now ≡ nodes_room) × (condition_start nodes.now n ≤ max_terms) }
    ensures { result ≡ condition_start nodes.now n }
{
    let mut q = 0;
    for i in 0..n {
        q += condition_length(nodes, i) + own_length(nodes, i);
    }
    q
}

fn put_header(nodes: &[usize], n: usize, r: usize, table: &mut [u32])
    requires { (length nodes.now ≡ nodes_room) × (condition_start nodes.now n ≤ max_terms) }
    ensures { table.new ≡ written table.old 0 (header_words nodes.now n r) }
{
    put_three(table, 0, 1399811687, r, n);
    put_three(
        table,
        3,
        binders_before(nodes, n),
        terms_before(nodes, n),
        1,
    );
}

fn put_rules(nodes: &[usize], rules: &[usize], r: usize, table: &mut [u32])
    requires { (length nodes.now ≡ nodes_room) × (length rules.now ≡ rules_room) × (r ≤ max_rules) }
    ensures { table.new ≡ written table.old rules_at (flat r 0 (rule_words nodes.now rules.now)) }
{
    for k in 0..r {
        let first = rule_word(rules, k, FIRST_NODE);
        let before = binders_before(nodes, first);
        let after = binders_before(nodes, rule_word(rules, k, LAST_NODE));
        put_four(
            table,
            RULES_AT + 4 * k,
            first,
            before,
            after.saturating_sub(before),
            0,
        );
    }
}

// 1 of a sint, else 0.
fn sign_word(text: &[u8], nodes: &[usize], i: usize) -> usize
    requires { length nodes.now ≡ nodes_room }
    ensures { result ≡ cond (is_signed text.now nodes.now i) 1 0 }
{
    if signed(text, nodes, i) { 1 } else { 0 }
}

// The variable that node i binds, if it binds one, as variable x. Answers the number of the next.
fn put_variable(text: &[u8], nodes: &[usize], i: usize, x: usize, table: &mut [u32]) -> usize
    requires { (length nodes.now ≡ nodes_room) × (i < max_constructs) × (x ≡ binders-beforeOf nodes.now i) }
    ensures { (table.new ≡ written table.old (variables_at + 4 * x) (variable_words text.now nodes.now i)) × (result ≡ binders-beforeOf nodes.now (i + 1)) }
{
    if binder(nodes, i) {
        put_four(
            table,
            VARIABLES_AT + 4 * x,
            i,
            width(text, nodes, i),
            sign_word(text, nodes, i),
            0,
        );
        return x + 1;
    }
    x
}

fn put_variables(text: &[u8], nodes: &[usize], n: usize, table: &mut [u32])
    requires { (length nodes.now ≡ nodes_room) × (n ≤ max_constructs) }
    ensures { table.new ≡ written table.old variables_at (flat n 0 (variable_words text.now nodes.now)) }
{
    let mut x = 0;
    for i in 0..n {
        x = put_variable(text, nodes, i, x, table);
    }
}

fn put_constructs(
    text: &[u8],
    nodes: &[usize],
    rules: &[usize],
    n: usize,
    r: usize,
    table: &mut [u32],
)
    requires { (length nodes.now ≡ nodes_room) × (length rules.now ≡ rules_room) × (n ≤ max_constructs) × (condition_start nodes.now n ≤ max_terms) }
    ensures { table.new ≡ written table.old constructs_at (flat n 0 (construct_words text.now nodes.now rules.now r)) }
{
    let mut q = 0;
    for i in 0..n {
        construct(text, nodes, rules, r, i, q, table);
        q += condition_length(nodes, i) + own_length(nodes, i);
    }
}

// The two lists of construct i, from the table's term q on.
fn put_lists(
    text: &[u8],
    nodes: &[usize],
    terms: &[usize],
    a: usize,
    i: usize,
    q: usize,
    table: &mut [u32],
)
    requires { (length nodes.now ≡ nodes_room) × (length terms.now ≡ terms_room) × (a ≤ i) × (q ≡ condition_start nodes.now i) × (condition_start nodes.now (i + 1) ≤ max_terms) }
    ensures { table.new ≡ written table.old (terms_at + 3 * q) (two_lists text.now nodes.now terms.now a i) }
{
    let n = condition_length(nodes, i);
    list(
        text,
        nodes,
        terms,
        a,
        i,
        node_word(nodes, i, CONDITION_FROM),
        n,
        q,
        table,
    );
    let m = own_length(nodes, i);
    list(
        text,
        nodes,
        terms,
        a,
        i,
        node_word(nodes, i, OWN_FROM),
        m,
        q + n,
        table,
    );
}

fn put_terms(
    text: &[u8],
    nodes: &[usize],
    terms: &[usize],
    rules: &[usize],
    n: usize,
    r: usize,
    table: &mut [u32],
)
    requires { (length nodes.now ≡ nodes_room) × (length terms.now ≡ terms_room) × (length rules.now ≡ rules_room) × (n ≤ max_constructs) × (condition_start nodes.now n ≤ max_terms) }
    ensures { table.new ≡ written table.old terms_at (flat n 0 (lists_words text.now nodes.now terms.now rules.now r)) }
{
    let mut q = 0;
    for i in 0..n {
        put_lists(text, nodes, terms, first_at(rules, r, i), i, q, table);
        q += condition_length(nodes, i) + own_length(nodes, i);
    }
}

fn put_literals(text: &[u8], nodes: &[usize], n: usize, table: &mut [u32])
    requires { (length nodes.now ≡ nodes_room) × (n ≤ max_constructs) }
    ensures { table.new ≡ written table.old literals_at (flat n 0 (literal_words text.now nodes.now)) }
{
    for i in 0..n {
        literal(text, nodes, i, table);
    }
}

// The table's words of n nodes in r rules, written over zeros.
pub fn encode(
    text: &[u8],
    nodes: &[usize],
    terms: &[usize],
    rules: &[usize],
    n: usize,
    r: usize,
    table: &mut [u32],
)
    requires { (length nodes.now ≡ nodes_room) × (length terms.now ≡ terms_room) × (length rules.now ≡ rules_room) × (n ≤ max_constructs) × (r ≤ max_rules) × (condition_start nodes.now n ≤ max_terms) × (table.old ≡ replicate table_words 0) }
    ensures { table.new ≡ encoded text.now nodes.now terms.now rules.now n r }
{
    put_header(nodes, n, r, table);
    put_rules(nodes, rules, r, table);
    put_variables(text, nodes, n, table);
    put_constructs(text, nodes, rules, n, r, table);
    put_terms(text, nodes, terms, rules, n, r, table);
    put_literals(text, nodes, n, table);
}
