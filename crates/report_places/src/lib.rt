// What a grammar's text has at a construct, a rule or a name: the facts of the report.
#![tactic(auto)]

ghost use Rattle.std.specs.Prelude.{◌≡◌, ℕ, ◌+◌, ◌-◌, ◌≤◌, length, drop};
ghost use Rattle.basis.specs.Limits.{max_text_bytes, max_rules};
ghost use Rattle.text_store.specs.Words.{node_word, place_of, kind_of, named_at, nodes_room, terms_room, rules_room};
ghost use Rattle.text_admission.specs.Admitted.{form};
ghost use Rattle.report_faults.specs.Faults.{from_base, rule_number, first_rule, name_fault};
ghost use Rattle.report_further.specs.Further.{next_fault};
ghost use Rattle.report_places.specs.Located.{totals_of, answered, located_in, located};

use basis::MAX_TEXT_BYTES;
use report_faults::Fault;
use report_faults::faults::{first_rule, from, name_fault, rule_number};
use report_further::further::next_fault;
use text_header::Heading;
use text_store::words::{node_word, rule_word};
use text_store::{
    BINDERS_AT_END, KIND, LAST_NODE, NAMED_AT, NODES_ROOM, PLACE, RULES_ROOM, TERMS_AT_END,
    TERMS_ROOM,
};

// A construct by its number; how much there is up to the rule that a place lies in; the name of that rule; the rule that has the name at a place; what
// is wrong with the name at a place; the first name at fault from a place on.
#[derive(Clone, Copy)]
pub enum Query {
    Construct(usize),
    Rule(usize),
    Owner(usize),
    Definition(usize),
    Name(usize),
    Fault(usize),
}

// A construct's first byte in the whole text, its kind (6 literal, 7 range, 8 uint, 9 eod; the others as in `text_parsing`), and how many
// constructs the text has. How many rules, constructs, terms and variables there are up to a rule's end. A name's place, far past the text where there is
// no such name. Nothing, where the header or the form of the rules is wrong.
#[derive(Clone, Copy)]
pub enum Located {
    Construct {
        place: usize,
        kind: usize,
        count: usize,
    },
    Rule {
        rules: usize,
        constructs: usize,
        terms: usize,
        variables: usize,
    },
    Place(usize),
    Name(Fault),
    Nothing,
}

fn construct(nodes: &[usize], base: usize, i: usize, count: usize) -> Located
    requires { (length nodes.now ≡ nodes_room) × (base ≤ max_text_bytes) × ((k : ℕ) → node_word nodes.now k 2 ≤ max_text_bytes) }
    ensures { result ≡ Located.Construct (base + place_of nodes.now i) (kind_of nodes.now i) count }
{
    let place = node_word(nodes, i, PLACE);
    let kind = node_word(nodes, i, KIND);
    Located::Construct {
        place: base + place,
        kind,
        count,
    }
}

// Up to the end of rule k.
fn totals(rules: &[usize], k: usize) -> Located
    requires { (length rules.now ≡ rules_room) × (k ≤ max_rules) }
    ensures { result ≡ totals_of rules.now k }
{
    let constructs = rule_word(rules, k, LAST_NODE);
    let terms = rule_word(rules, k, TERMS_AT_END);
    let variables = rule_word(rules, k, BINDERS_AT_END);
    Located::Rule {
        rules: k + 1,
        constructs,
        terms,
        variables,
    }
}

fn rule(rules: &[usize], count: usize, p: usize) -> Located
    requires { length rules.now ≡ rules_room }
    ensures { result ≡ totals_of rules.now (rule_number rules.now count p) }
{
    totals(rules, rule_number(rules, count, p))
}

fn owner(rules: &[usize], base: usize, count: usize, p: usize) -> Located
    requires { length rules.now ≡ rules_room }
    ensures { result ≡ Located.Place (from_base base (named_at rules.now (rule_number rules.now count p))) }
{
    let k = rule_number(rules, count, p);
    Located::Place(from(base, rule_word(rules, k, NAMED_AT)))
}

fn definition(text: &[u8], rules: &[usize], base: usize, count: usize, p: usize) -> Located
    requires { length rules.now ≡ rules_room }
    ensures { result ≡ Located.Place (from_base base (first_rule text.now rules.now count p)) }
{
    Located::Place(from(base, first_rule(text, rules, count, p)))
}

fn name(
    text: &[u8],
    nodes: &[usize],
    rules: &[usize],
    base: usize,
    constructs: usize,
    count: usize,
    p: usize,
) -> Located
    requires { (length nodes.now ≡ nodes_room) × (length rules.now ≡ rules_room) }
    ensures { result ≡ Located.Name (name_fault text.now nodes.now rules.now base constructs count p) }
{
    Located::Name(name_fault(text, nodes, rules, base, constructs, count, p))
}

fn at_fault(
    text: &[u8],
    nodes: &[usize],
    terms: &[usize],
    rules: &[usize],
    base: usize,
    count: usize,
    p: usize,
) -> Located
    requires { (length nodes.now ≡ nodes_room) × (length terms.now ≡ terms_room) × (length rules.now ≡ rules_room) }
    ensures { result ≡ Located.Place (from_base base (next_fault p text.now nodes.now terms.now rules.now count)) }
{
    Located::Place(from(base, next_fault(text, nodes, terms, rules, p, count)))
}

fn inside(base: usize, at: usize) -> usize
    ensures { result ≡ at - base }
{
    if base <= at {
        return at - base;
    }
    0
}

fn answer(
    text: &[u8],
    nodes: &[usize],
    terms: &[usize],
    rules: &[usize],
    base: usize,
    constructs: usize,
    count: usize,
    query: Query,
) -> Located
    requires { (length nodes.now ≡ nodes_room) × (length terms.now ≡ terms_room) × (length rules.now ≡ rules_room) × (base ≤ max_text_bytes) × ((k : ℕ) → node_word nodes.now k 2 ≤ max_text_bytes) }
    ensures { result ≡ answered text.now nodes.now terms.now rules.now base constructs count query }
{
    match query {
        Query::Construct(i) => construct(nodes, base, i, constructs),
        Query::Rule(at) => rule(rules, count, inside(base, at)),
        Query::Owner(at) => owner(rules, base, count, inside(base, at)),
        Query::Definition(at) => definition(text, rules, base, count, inside(base, at)),
        Query::Name(at) => name(
            text,
            nodes,
            rules,
            base,
            constructs,
            count,
            inside(base, at),
        ),
        Query::Fault(at) => at_fault(text, nodes, terms, rules, base, count, inside(base, at)),
    }
}

// Of the text that follows the empty line; `base` is its place in the whole text.
fn locate_rules(text: &[u8], base: usize, query: Query) -> Located
    requires { (length text.now ≤ max_text_bytes) × (base ≤ max_text_bytes) }
    ensures { result ≡ located_in text.now base query (form text.now) }
{
    let mut nodes = [0usize; NODES_ROOM];
    let mut terms = [0usize; TERMS_ROOM];
    let mut rules = [0usize; RULES_ROOM];
    let c = text_syntax::rules::read(text, &mut nodes, &mut terms, &mut rules);
    if c.code == 0 {
        return Located::Nothing;
    }
    answer(text, &nodes, &terms, &rules, base, c.nodes, c.rules, query)
}

// The rules begin at `base`.
fn locate_from(text: &[u8], base: usize, query: Query) -> Located
    requires { (base ≤ length text.now) × (length text.now ≤ max_text_bytes) }
    ensures { result ≡ located_in (drop base text.now) base query (form (drop base text.now)) }
{
    locate_rules(&text[base..], base, query)
}

// The answer for any bytes.
pub fn locate(text: &[u8], query: Query) -> Located
    ensures { result ≡ located text.now query }
{
    if MAX_TEXT_BYTES < text.len() {
        return Located::Nothing;
    }
    match text_header::header::header(text) {
        Heading::Wrong(_) => Located::Nothing,
        Heading::Rules(base) => locate_from(text, base, query),
    }
}
