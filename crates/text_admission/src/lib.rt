// Admission of a grammar's text: refusals 1 to 13 in order, or the table of its grammar.
#![tactic(auto)]

ghost use Rattle.std.specs.Prelude.{◌≡◌, ℕ, ◌+◌, ◌≤◌, ◌<◌, length, drop};
ghost use Rattle.basis.specs.Limits.{max_text_bytes, table_words};
ghost use Rattle.table_judge.specs.Judged.{Passed8};
ghost use Rattle.text_parsing.specs.Cursors.{state_at};
ghost use Rattle.text_store.specs.Words.{node_word, place_of, named_at, nodes_room, rules_room};
ghost use Rattle.text_admission.specs.Admitted.{words_of, Right, Named, NotRecursive, AnsweredRules, Answers};
ghost use Rattle.text_admission.specs.Late.{Late, is_admitted, HandedOver, Within};

use basis::{MAX_TEXT_BYTES, TABLE_WORDS};
use table_conflicts::Clash;
use table_first_follow::FAMILY_WORDS;
use table_judge::Fault;
use text_header::Heading;
use text_parsing::Cursor;
use text_store::words::{node_word, rule_word};
use text_store::{NAMED_AT, NODES_ROOM, PLACE, RULES_ROOM, TERMS_ROOM};

mod copying;
mod extents;
mod marks;

// The answer to a text: its grammar's weight, or a number of the papers with a place; a conflict (10) with its construct, and the least
// window with the branches that share it.
#[derive(Clone, Copy)]
pub enum Admission {
    Admitted {
        weight: usize,
    },
    Refused {
        number: usize,
        place: usize,
    },
    Conflict {
        place: usize,
        construct: usize,
        clash: Clash,
    },
}

// A place, where there is one.
#[derive(Clone, Copy)]
pub enum Found {
    At(usize),
    Nothing,
}

fn placed(base: usize, p: usize) -> usize
    requires { (base ≤ max_text_bytes) × (p ≤ max_text_bytes) }
    ensures { result ≡ base + p }
{
    base + p
}

fn refused(number: usize, base: usize, p: usize) -> Admission
    requires { (base ≤ max_text_bytes) × (p ≤ max_text_bytes) }
    ensures { result ≡ Admission.Refused number (base + p) }
{
    Admission::Refused {
        number,
        place: placed(base, p),
    }
}

// At a rule's name.
fn refused_at(number: usize, base: usize, rules: &[usize], rule: usize) -> Admission
    requires { (length rules.now ≡ rules_room) × (base ≤ max_text_bytes) × ((k : ℕ) → named_at rules.now k ≤ max_text_bytes) }
    ensures { result ≡ Admission.Refused number (base + named_at rules.now rule) }
{
    refused(number, base, rule_word(rules, rule, NAMED_AT))
}

// At a construct.
fn refused_in(number: usize, base: usize, nodes: &[usize], construct: usize) -> Admission
    requires { (length nodes.now ≡ nodes_room) × (base ≤ max_text_bytes) × ((i : ℕ) → (node_word nodes.now i 2 ≤ max_text_bytes) × (node_word nodes.now i 4 ≤ max_text_bytes)) }
    ensures { result ≡ Admission.Refused number (base + place_of nodes.now construct) }
{
    refused(number, base, node_word(nodes, construct, PLACE))
}

fn conflict(nodes: &[usize], base: usize, construct: usize, clash: Clash) -> Admission
    requires { (length nodes.now ≡ nodes_room) × (base ≤ max_text_bytes) × ((i : ℕ) → (node_word nodes.now i 2 ≤ max_text_bytes) × (node_word nodes.now i 4 ≤ max_text_bytes)) }
    ensures { result ≡ Admission.Conflict (base + place_of nodes.now construct) construct clash }
{
    Admission::Conflict {
        place: placed(base, node_word(nodes, construct, PLACE)),
        construct,
        clash,
    }
}

// 9 to 13, of words that pass 5 to 8.
fn judged(nodes: &[usize], rules: &[usize], base: usize, words: &mut [u32]) -> Admission
    requires { Passed8 words.old × (length nodes.now ≡ nodes_room) × (length rules.now ≡ rules_room) × (base ≤ max_text_bytes) × Within nodes.now rules.now }
    ensures { Late nodes.now rules.now base words.old words.new result }
{
    let mut first = [0u64; FAMILY_WORDS];
    match table_fill::complete(words, &mut first) {
        Ok(weight) => Admission::Admitted { weight },
        Err(Fault::EmptyBody { construct: _ }) => {
            refused(9, base, marks::least_mark(words, &first, nodes))
        }
        Err(Fault::Conflict { construct, clash }) => conflict(nodes, base, construct, clash),
        Err(Fault::Overweight) => refused_at(11, base, rules, 0),
        Err(Fault::Unreached { rule }) => refused_at(12, base, rules, rule),
        Err(Fault::NoValue { construct }) => refused_in(13, base, nodes, construct),
    }
}

fn is_admitted(answer: Admission) -> bool
    ensures { result ≡ is_admitted answer }
{
    match answer {
        Admission::Admitted { weight: _ } => true,
        Admission::Refused {
            number: _,
            place: _,
        } => false,
        Admission::Conflict {
            place: _,
            construct: _,
            clash: _,
        } => false,
    }
}

// An admitted grammar's table goes to the caller.
#[tactic(auto, using(crate::proofs::Handing::copied, crate::proofs::Handing::untouched))]
fn handed_over(answer: Admission, words: &[u32], table: &mut [u32]) -> Admission
    requires { (length words.now ≡ table_words) × (table_words ≤ length table.old) }
    ensures { (result ≡ answer) × HandedOver answer words.now table.old table.new }
{
    if is_admitted(answer) {
        copying::copy(words, table);
    }
    answer
}

// 8 to 13, of words in which no rule reaches itself.
fn admit_words(
    text: &[u8],
    nodes: &[usize],
    terms: &[usize],
    rules: &[usize],
    c: Cursor,
    base: usize,
    words: &mut [u32],
    table: &mut [u32],
) -> Admission
    requires { NotRecursive text.now (state_at c nodes.now terms.now rules.now) × (words.old ≡ words_of text.now (state_at c nodes.now terms.now rules.now)) × (length text.now ≤ max_text_bytes) × (base ≤ max_text_bytes) × (table_words ≤ length table.old) }
    ensures { AnsweredRules text.now base table.old table.new result }
{
    match extents::first_oversized(text, nodes, terms, c.nodes, words) {
        Found::At(p) => refused(8, base, p),
        Found::Nothing => {
            let answer = judged(nodes, rules, base, words);
            handed_over(answer, words, table)
        }
    }
}

// 7 to 13, of what is read.
fn admit_read(
    text: &[u8],
    nodes: &[usize],
    terms: &[usize],
    rules: &[usize],
    c: Cursor,
    base: usize,
    table: &mut [u32],
) -> Admission
    requires { Named text.now (state_at c nodes.now terms.now rules.now) × (length text.now ≤ max_text_bytes) × (base ≤ max_text_bytes) × (table_words ≤ length table.old) }
    ensures { AnsweredRules text.now base table.old table.new result }
{
    let mut words = [0u32; TABLE_WORDS];
    text_encoding::areas::encode(text, nodes, terms, rules, c.nodes, c.rules, &mut words);
    match table_reach::recursive_rule(&words) {
        Some(rule) => refused_at(7, base, rules, rule),
        None => admit_words(text, nodes, terms, rules, c, base, &mut words, table),
    }
}

// 5 to 13, of what is read.
fn admit_checked(
    text: &[u8],
    nodes: &[usize],
    terms: &[usize],
    rules: &[usize],
    c: Cursor,
    base: usize,
    table: &mut [u32],
) -> Admission
    requires { Right text.now (state_at c nodes.now terms.now rules.now) × (length text.now ≤ max_text_bytes) × (base ≤ max_text_bytes) × (table_words ≤ length table.old) }
    ensures { AnsweredRules text.now base table.old table.new result }
{
    let past = text_names::limits::first_past(rules, c.rules);
    if past < 18446744073709551615 {
        return refused(5, base, past);
    }
    let wrong = text_names::places::first_fault(text, nodes, terms, rules, c.rules);
    if wrong < 18446744073709551615 {
        return refused(6, base, wrong);
    }
    admit_read(text, nodes, terms, rules, c, base, table)
}

// 4 to 13, of the text that follows the empty line; `base` is its place in the whole text.
fn admit_rules(text: &[u8], base: usize, table: &mut [u32]) -> Admission
    requires { (length text.now ≤ max_text_bytes) × (base ≤ max_text_bytes) × (table_words ≤ length table.old) }
    ensures { AnsweredRules text.now base table.old table.new result }
{
    let mut nodes = [0usize; NODES_ROOM];
    let mut terms = [0usize; TERMS_ROOM];
    let mut rules = [0usize; RULES_ROOM];
    let c = text_syntax::rules::read(text, &mut nodes, &mut terms, &mut rules);
    if c.code == 0 {
        return refused(4, base, c.start);
    }
    admit_checked(text, &nodes, &terms, &rules, c, base, table)
}

// The rules begin at `base`.
fn admit_from(text: &[u8], base: usize, table: &mut [u32]) -> Admission
    requires { (base ≤ length text.now) × (length text.now ≤ max_text_bytes) × (table_words ≤ length table.old) }
    ensures { AnsweredRules (drop base text.now) base table.old table.new result }
{
    admit_rules(&text[base..], base, table)
}

// Any bytes as text, any words as table: answered by what is stored of the text. `admission::admit` says what that means.
pub fn answer(text: &[u8], table: &mut [u32]) -> Admission
    ensures { Answers text.now table.old table.new result }
{
    if table.len() < TABLE_WORDS {
        return refused(1, 0, 0);
    }
    if text.len() == 0 {
        return refused(2, 0, 0);
    }
    if MAX_TEXT_BYTES < text.len() {
        return refused(2, 0, 0);
    }
    match text_header::header::header(text) {
        Heading::Wrong(place) => refused(3, 0, place),
        Heading::Rules(base) => admit_from(text, base, table),
    }
}
