// Refusal 8: the least place of a width or a calculation outside its limits.
ghost use Rattle.std.specs.Prelude.{◌≡◌, ℕ, ◌+◌, ◌-◌, ◌≤◌, ◌<◌, length};
ghost use Rattle.basis.specs.Limits.{max_constructs, max_terms, table_words};
ghost use Rattle.table_layout.specs.Constructs.{construct_at};
ghost use Rattle.table_sizes.specs.Measures.{widest as widestOf, condition_size, own_size};
ghost use Rattle.text_store.specs.Words.{node_word, nodes_room, terms_room};
ghost use Rattle.text_encoding.specs.Numbers.{condition_start, own_start};
ghost use Rattle.text_admission.specs.Extents.{lesser as lesserOf, found_if, least_found, most_of, width_found, origin_after, list_found, node_found, refusal_8};

use crate::Found;
use basis::{MAX_BOUND_WIDTH, MAX_TERMS, MAX_VARIABLES, MAX_WIDTH};
use term_sizes::SizeError;
use text_encoding::numbers::{condition_length, own_length, width};
use text_names::counting::min;
use text_store::words::{binder, node_word, term_word};
use text_store::{CONDITION_FROM, KIND, ORIGIN, OWN_FROM, WIDTH_PLACE};

fn lesser(a: Found, b: Found) -> Found
    ensures { result ≡ lesserOf a b }
{
    match a {
        Found::Nothing => b,
        Found::At(p) => match b {
            Found::Nothing => Found::At(p),
            Found::At(q) => Found::At(min(p, q)),
        },
    }
}

fn found_if(fault: bool, p: usize) -> Found
    ensures { result ≡ found_if fault p }
{
    if fault {
        return Found::At(p);
    }
    Found::Nothing
}

// The widest that a uint or sint may be.
fn most(nodes: &[usize], i: usize) -> usize
    requires { length nodes.now ≡ nodes_room }
    ensures { result ≡ most_of nodes.now i }
{
    if binder(nodes, i) {
        return MAX_BOUND_WIDTH;
    }
    MAX_WIDTH
}

#[tactic(auto, unfolding(crate::specs::Extents::width_found, crate::specs::Extents::found_if))]
fn width_found(text: &[u8], nodes: &[usize], i: usize) -> Found
    requires { length nodes.now ≡ nodes_room }
    ensures { result ≡ width_found text.now nodes.now i }
{
    let w = width(text, nodes, i);
    let m = most(nodes, i);
    if node_word(nodes, i, KIND) == 8 && (w < 1 || m < w) {
        return Found::At(node_word(nodes, i, WIDTH_PLACE));
    }
    Found::Nothing
}

fn term_after(terms: &[usize], f: usize, at: usize, start: usize) -> usize
    requires { length terms.now ≡ terms_room }
    ensures { result ≡ origin_after terms.now f at start }
{
    let t = text_encoding::numbers::less(at, start);
    if f < MAX_TERMS {
        if t < MAX_TERMS {
            return term_word(terms, f + t, ORIGIN);
        }
    }
    0
}

// The first byte of the calculation at which a list of sizes is too large; the list is read from term f on, and is the table's from `start`.
fn list_found(terms: &[usize], f: usize, start: usize, sized: Result<(), SizeError>) -> Found
    requires { length terms.now ≡ terms_room }
    ensures { result ≡ list_found terms.now f start sized }
{
    let Err(error) = sized else {
        return Found::Nothing;
    };
    match error {
        SizeError::Malformed => Found::Nothing,
        SizeError::Exceeds(at) => Found::At(term_after(terms, f, at, start)),
    }
}

// Node i, whose lists are the table's from term q on.
fn node_found(
    text: &[u8],
    nodes: &[usize],
    terms: &[usize],
    table: &[u32],
    widest: &[i64; MAX_VARIABLES],
    i: usize,
    q: usize,
) -> Found
    requires { (length nodes.now ≡ nodes_room) × (length terms.now ≡ terms_room) × (table_words ≤ length table.now) × (widest.now ≡ widestOf table.now) × (i < max_constructs) × (q ≡ condition_start nodes.now i) × (condition_start nodes.now (i + 1) ≤ max_terms) }
    ensures { result ≡ node_found text.now nodes.now terms.now table.now i }
{
    let tested = list_found(
        terms,
        node_word(nodes, i, CONDITION_FROM),
        q,
        table_sizes::condition_sizes(table, widest, i),
    );
    let own = list_found(
        terms,
        node_word(nodes, i, OWN_FROM),
        q + condition_length(nodes, i),
        table_sizes::own_sizes(table, widest, i),
    );
    lesser(width_found(text, nodes, i), lesser(tested, own))
}

fn nodes_found(
    text: &[u8],
    nodes: &[usize],
    terms: &[usize],
    n: usize,
    table: &[u32],
    widest: &[i64; MAX_VARIABLES],
) -> Found
    requires { (length nodes.now ≡ nodes_room) × (length terms.now ≡ terms_room) × (table_words ≤ length table.now) × (widest.now ≡ widestOf table.now) × (n ≤ max_constructs) × (condition_start nodes.now n ≤ max_terms) }
    ensures { result ≡ least_found n 0 (node_found text.now nodes.now terms.now table.now) }
{
    let mut least = Found::Nothing;
    let mut q = 0;
    for i in 0..n {
        least = lesser(least, node_found(text, nodes, terms, table, widest, i, q));
        q += condition_length(nodes, i) + own_length(nodes, i);
    }
    least
}

pub fn first_oversized(
    text: &[u8],
    nodes: &[usize],
    terms: &[usize],
    n: usize,
    table: &[u32],
) -> Found
    requires { (length nodes.now ≡ nodes_room) × (length terms.now ≡ terms_room) × (table_words ≤ length table.now) × (n ≤ max_constructs) × (condition_start nodes.now n ≤ max_terms) }
    ensures { result ≡ refusal_8 text.now nodes.now terms.now table.now n }
{
    let widest = table_sizes::widest(table).sizes;
    nodes_found(text, nodes, terms, n, table, &widest)
}
