// The words of one construct, and of the terms and the bytes that it has.
ghost use Rattle.std.specs.Prelude.{◌≡◌, cond, [], ◌∷◌, ℕ, ◌+◌, ◌*◌, ◌≤◌, ◌<◌, length, get_or};
ghost use Rattle.table_layout.specs.Places.{constructs_at, terms_at, literals_at};
ghost use Rattle.basis.specs.Limits.{max_constructs, max_terms, max_literal_bytes};
ghost use Rattle.text_literals.specs.Literals.{characters_at};
ghost use Rattle.text_store.specs.Words.{kind_of, is_binder, nodes_room, terms_room, rules_room};
ghost use Rattle.text_encoding.specs.Lists.{flat, written};
ghost use Rattle.text_encoding.specs.Numbers.{binders_before as binders-beforeOf, condition_start, own_start, condition_length as condition-lengthOf};
ghost use Rattle.text_encoding.specs.Encoded.{start_word, end_word, operands as operandsOf, kind_word, construct_words, term_words, list_words, packed as packedOf, literal_words};

use crate::numbers::{
    binders_before, condition_length, own_length, rule_number, signed, variable_number, width,
};
use crate::put::{put_four, put_one, put_three, put_two};
use basis::MAX_LITERAL_BYTES;
use table_layout::{CONSTRUCTS_AT, LITERALS_AT, TERMS_AT};
use text_literals::{count_at, spell};
use text_store::words::{binder, node_word, term_word, variable};
use text_store::{KIND, LAST_PLACE, MARK, PLACE, SIZE, TAG, TERM_PLACE, VALUE};

fn start_word(start: usize, n: usize) -> usize
    ensures { result ≡ start_word start n }
{
    if 0 < n { start } else { 0 }
}

fn end_word(start: usize, n: usize) -> usize
    requires { start + n ≤ max_terms }
    ensures { result ≡ end_word start n }
{
    if 0 < n { start + n } else { 0 }
}

// 1 + the variable that a uint binds, or 0.
fn binder_word(nodes: &[usize], i: usize) -> usize
    requires { (length nodes.now ≡ nodes_room) × (i < max_constructs) }
    ensures { result ≡ cond (is_binder nodes.now i) (binders-beforeOf nodes.now i + 1) 0 }
{
    if binder(nodes, i) {
        binders_before(nodes, i) + 1
    } else {
        0
    }
}

// How many characters the literal at p has.
fn characters(text: &[u8], p: usize) -> usize
    ensures { result ≡ length (characters_at text.now p) }
{
    if p < text.len() { count_at(text, p) } else { 0 }
}

// The bytes of the literal at p, over zeros.
fn spelled(text: &[u8], p: usize, bytes: &mut [u8])
    requires { (length bytes.old ≡ max_literal_bytes) × ((k : ℕ) → get_or bytes.old k 0 ≡ 0) }
    ensures { (k : ℕ) → k < max_literal_bytes → get_or bytes.new k 0 ≡ get_or (characters_at text.now p) k 0 }
{
    if p < text.len() {
        spell(text, p, bytes);
    }
}

fn byte(bytes: &[u8], k: usize) -> usize
    requires { k < length bytes.now }
    ensures { (result ≡ get_or bytes.now k 0) × (result < 256) }
{
    bytes[k] as usize
}

// The first character of the literal at p.
fn character(text: &[u8], p: usize) -> usize
    ensures { result ≡ get_or (characters_at text.now p) 0 0 }
{
    let mut bytes = [0u8; MAX_LITERAL_BYTES];
    spelled(text, p, &mut bytes);
    byte(&bytes, 0)
}

// The operands of construct i; its own list begins at term `own`.
fn operands(
    text: &[u8],
    nodes: &[usize],
    rules: &[usize],
    count: usize,
    i: usize,
    own: usize,
    k: usize,
    table: &mut [u32],
)
    requires { (length nodes.now ≡ nodes_room) × (length rules.now ≡ rules_room) × (i < max_constructs) × (own ≡ own_start nodes.now i) × (condition_start nodes.now (i + 1) ≤ max_terms) × (k < 65536) }
    ensures { table.new ≡ written table.old k (operandsOf text.now nodes.now rules.now count i (kind_of nodes.now i)) }
{
    let kind = node_word(nodes, i, KIND);
    let p = node_word(nodes, i, PLACE);
    let n = own_length(nodes, i);
    match kind {
        3 => put_four(
            table,
            k,
            node_word(nodes, i, MARK),
            start_word(own, n),
            end_word(own, n),
            0,
        ),
        5 => put_four(table, k, rule_number(text, rules, count, p), 0, 0, 0),
        6 => put_four(table, k, characters(text, p), 0, 0, 0),
        7 => put_four(
            table,
            k,
            character(text, p),
            character(text, node_word(nodes, i, LAST_PLACE)),
            0,
            0,
        ),
        8 => put_four(
            table,
            k,
            width(text, nodes, i),
            start_word(own, n),
            end_word(own, n),
            binder_word(nodes, i),
        ),
        _ => put_four(table, k, 0, 0, 0, 0),
    }
}

// What construct i is: a sint is kind 12.
fn kind_word(text: &[u8], nodes: &[usize], i: usize) -> usize
    requires { length nodes.now ≡ nodes_room }
    ensures { result ≡ kind_word text.now nodes.now i }
{
    let kind = node_word(nodes, i, KIND);
    if kind == 8 && signed(text, nodes, i) {
        12
    } else {
        kind
    }
}

// Construct i, whose lists begin at term `start`.
pub fn construct(
    text: &[u8],
    nodes: &[usize],
    rules: &[usize],
    count: usize,
    i: usize,
    start: usize,
    table: &mut [u32],
)
    requires { (length nodes.now ≡ nodes_room) × (length rules.now ≡ rules_room) × (i < max_constructs) × (start ≡ condition_start nodes.now i) × (condition_start nodes.now (i + 1) ≤ max_terms) }
    ensures { table.new ≡ written table.old (constructs_at + 8 * i) (construct_words text.now nodes.now rules.now count i) }
{
    let k = CONSTRUCTS_AT + 8 * i;
    let n = condition_length(nodes, i);
    put_two(
        table,
        k,
        kind_word(text, nodes, i),
        node_word(nodes, i, SIZE),
    );
    operands(text, nodes, rules, count, i, start + n, k + 2, table);
    put_two(table, k + 6, start_word(start, n), end_word(start, n));
}

fn term(
    text: &[u8],
    nodes: &[usize],
    terms: &[usize],
    a: usize,
    i: usize,
    t: usize,
    k: usize,
    table: &mut [u32],
)
    requires { (length nodes.now ≡ nodes_room) × (length terms.now ≡ terms_room) × (a ≤ i) × (k < 65536) }
    ensures { table.new ≡ written table.old k (term_words text.now nodes.now terms.now a i t) }
{
    let tag = term_word(terms, t, TAG);
    if variable(tag) {
        put_three(
            table,
            k,
            tag,
            variable_number(text, nodes, a, i, term_word(terms, t, TERM_PLACE)),
            0,
        );
        return;
    }
    let value = term_word(terms, t, VALUE);
    put_three(table, k, tag, value, value / 4294967296);
}

// n terms from term t on, to the table's terms from number q on.
pub fn list(
    text: &[u8],
    nodes: &[usize],
    terms: &[usize],
    a: usize,
    i: usize,
    t: usize,
    n: usize,
    q: usize,
    table: &mut [u32],
)
    requires { (length nodes.now ≡ nodes_room) × (length terms.now ≡ terms_room) × (a ≤ i) × (q + n ≤ max_terms) × (t + n ≤ 18446744073709551615) }
    ensures { table.new ≡ written table.old (terms_at + 3 * q) (list_words text.now nodes.now terms.now a i t n) }
{
    for j in 0..n {
        term(
            text,
            nodes,
            terms,
            a,
            i,
            t + j,
            TERMS_AT + 3 * (q + j),
            table,
        );
    }
}

fn packed(bytes: &[u8], k: usize) -> usize
    requires { (length bytes.now ≡ max_literal_bytes) × (k + 4 ≤ max_literal_bytes) }
    ensures { result ≡ packedOf bytes.now k }
{
    let d = byte(bytes, k + 3);
    let c = byte(bytes, k + 2) + 256 * d;
    let b = byte(bytes, k + 1) + 256 * c;
    byte(bytes, k) + 256 * b
}

fn put_bytes(bytes: &[u8], k: usize, table: &mut [u32])
    requires { (length bytes.now ≡ max_literal_bytes) × (k < 65536) }
    ensures { table.new ≡ written table.old k (flat 8 0 (λ (j : ℕ). packedOf bytes.now (4 * j) ∷ [])) }
{
    for j in 0..8 {
        put_one(table, k + j, packed(bytes, 4 * j));
    }
}

// The bytes of construct i; the table has zeros there.
pub fn literal(text: &[u8], nodes: &[usize], i: usize, table: &mut [u32])
    requires { (length nodes.now ≡ nodes_room) × (i < max_constructs) }
    ensures { table.new ≡ written table.old (literals_at + 8 * i) (literal_words text.now nodes.now i) }
{
    let k = LITERALS_AT + 8 * i;
    if node_word(nodes, i, KIND) == 6 {
        let mut bytes = [0u8; MAX_LITERAL_BYTES];
        spelled(text, node_word(nodes, i, PLACE), &mut bytes);
        put_bytes(&bytes, k, table);
        return;
    }
    put_four(table, k, 0, 0, 0, 0);
    put_four(table, k + 4, 0, 0, 0, 0);
}
