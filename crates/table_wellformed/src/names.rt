// Binders and uses of variables.
ghost use Rattle.std.specs.Prelude.{◌≡◌, ◌&&◌, ◌+◌, ◌≤◌, ◌<◌, length, ltb};
ghost use Rattle.basis.specs.Limits.{table_words};
ghost use Rattle.table_wellformed.specs.Checks.{size_at};
ghost use Rattle.table_wellformed.specs.Rules.{next_variable, binder_of, named_back, sign_word, variable_laid, member_laid, binders_from, has_members, is_concatenation, members_at, binders_laid, visible as visibleOf, operation_named, term_named, list_named, construct_named, uses_laid, names_laid};

use crate::checks::{construct_word, rule_word, size_at, variable_word, zeros};
use crate::lists::{own_end, own_start, term_words};
use crate::rules::rule_end;
use table_layout::{Below, Construct, VARIABLES_AT, attributes_of, construct_at, word};
use term_words::decode::term_at;
use term_words::{Operation, Term};

fn binder(construct: Construct) -> usize
    ensures { result ≡ binder_of construct }
{
    attributes_of(construct).binder
}

// 1 of a sint, else 0.
fn sign(construct: Construct) -> usize
    ensures { result ≡ sign_word construct }
{
    if attributes_of(construct).signed {
        1
    } else {
        0
    }
}

// Whether the variable of construct i's binder names i.
pub fn named_back(table: &[u32], i: usize, binder: usize) -> bool
    ensures { result ≡ named_back table.now i binder }
{
    binder == 0 || (binder <= word(table, 3) && variable_word(table, binder - 1, 0) == i)
}

// Whether construct j binds variable x.
fn variable(table: &[u32], x: usize, j: usize) -> bool
    requires { (x ≤ 8589934592) × (j ≤ 4294967296) }
    ensures { result ≡ variable_laid table.now x j }
{
    let at = VARIABLES_AT + 4 * x;
    binder(construct_at(table, j)) == x + 1
        && variable_word(table, x, 0) == j
        && variable_word(table, x, 1) == construct_word(table, j, 2)
        && variable_word(table, x, 2) == sign(construct_at(table, j))
        && zeros(table, at + 3, at + 4)
}

fn member(table: &[u32], x: usize, j: usize) -> bool
    requires { (x ≤ 8589934592) × (j ≤ 4294967296) }
    ensures { result ≡ (ltb 0 (size_at table.now j) && member_laid table.now j x) }
{
    0 < size_at(table, j) && (binder(construct_at(table, j)) == 0 || variable(table, x, j))
}

fn next_variable(table: &[u32], j: usize, x: usize) -> usize
    requires { x ≤ 8589934592 }
    ensures { (result ≡ next_variable table.now j x) × (result ≤ x + 1) }
{
    if 0 < binder(construct_at(table, j)) {
        x + 1
    } else {
        x
    }
}

// Whether the constructs from `start` up to `end` bind the variables from `first` up to `last`, in order.
fn binders(table: &[u32], start: usize, end: usize, first: usize, last: usize) -> bool
    requires { (end ≤ 4294967296) × (first ≤ 4294967296) }
    ensures { result ≡ binders_from table.now start end first last }
{
    let mut j = start;
    let mut x = first;
    while j < end {
        if !member(table, x, j) {
            return false;
        }
        x = next_variable(table, j, x);
        j += size_at(table, j);
    }
    x == last
}

fn has_members(below: Below) -> bool
    ensures { result ≡ has_members below }
{
    matches!(below, Below::Members)
}

fn concatenates(construct: Construct) -> bool
    ensures { result ≡ is_concatenation construct }
{
    has_members(attributes_of(construct).below)
}

// The first of rule r's constructs that may bind.
fn members_at(table: &[u32], r: usize) -> usize
    requires { r < 4294967296 }
    ensures { result ≡ members_at table.now r }
{
    let body = rule_word(table, r, 0);
    if concatenates(construct_at(table, body)) {
        body + 1
    } else {
        body
    }
}

fn rule_binders(table: &[u32], r: usize) -> bool
    requires { r < 4294967296 }
    ensures { result ≡ binders_laid table.now r }
{
    binders(
        table,
        members_at(table, r),
        rule_end(table, r, 0),
        rule_word(table, r, 1),
        rule_end(table, r, 1),
    )
}

// Whether construct i, of a rule with the variables from `first` up to `last`, may use y.
fn visible(table: &[u32], first: usize, last: usize, i: usize, y: usize) -> bool
    requires { last ≤ 4294967296 }
    ensures { result ≡ visibleOf table.now first last i y }
{
    first <= y && y < last && variable_word(table, y, 0) < i
}

fn operation_visible(
    table: &[u32],
    first: usize,
    last: usize,
    i: usize,
    operation: Operation,
) -> bool
    requires { last ≤ 4294967296 }
    ensures { result ≡ operation_named table.now first last i operation }
{
    match operation {
        Operation::Variable(y) => visible(table, first, last, i, y),
        _ => true,
    }
}

fn term_visible(table: &[u32], first: usize, last: usize, i: usize, term: Term) -> bool
    requires { last ≤ 4294967296 }
    ensures { result ≡ term_named table.now first last i term }
{
    match term {
        Term::Part(operation) | Term::Single(operation) => {
            operation_visible(table, first, last, i, operation)
        }
        _ => true,
    }
}

// Whether the terms from `start` up to `end` use only what construct i may use.
fn list_visible(
    table: &[u32],
    first: usize,
    last: usize,
    i: usize,
    start: usize,
    end: usize,
) -> bool
    requires { (table_words ≤ length table.now) × (last ≤ 4294967296) }
    ensures { result ≡ list_named table.now first last i start end }
{
    let words = term_words(table);
    for t in start..end {
        if !term_visible(table, first, last, i, term_at(words, t)) {
            return false;
        }
    }
    true
}

fn construct_visible(table: &[u32], first: usize, last: usize, i: usize) -> bool
    requires { (table_words ≤ length table.now) × (last ≤ 4294967296) × (i ≤ 4294967296) }
    ensures { result ≡ construct_named table.now first last i }
{
    let construct = construct_at(table, i);
    let start = construct_word(table, i, 6);
    let end = construct_word(table, i, 7);
    list_visible(table, first, last, i, start, end)
        && list_visible(
            table,
            first,
            last,
            i,
            own_start(construct),
            own_end(construct),
        )
}

fn rule_uses(table: &[u32], r: usize) -> bool
    requires { (table_words ≤ length table.now) × (r < 4294967296) }
    ensures { result ≡ uses_laid table.now r }
{
    let first = rule_word(table, r, 1);
    let last = rule_end(table, r, 1);
    let end = rule_end(table, r, 0);
    let start = rule_word(table, r, 0);
    for i in start..end {
        if !construct_visible(table, first, last, i) {
            return false;
        }
    }
    true
}

fn rule_named(table: &[u32], r: usize) -> bool
    requires { (table_words ≤ length table.now) × (r < 4294967296) }
    ensures { result ≡ (binders_laid table.now r && uses_laid table.now r) }
{
    rule_binders(table, r) && rule_uses(table, r)
}

pub fn names(table: &[u32]) -> bool
    requires { table_words ≤ length table.now }
    ensures { result ≡ names_laid table.now }
{
    let count = word(table, 1);
    for r in 0..count {
        if !rule_named(table, r) {
            return false;
        }
    }
    true
}
