// The lists of terms.
ghost use Rattle.std.specs.Prelude.{◌≡◌, ◌≤◌, length};
ghost use Rattle.basis.specs.Limits.{table_words};
ghost use Rattle.table_layout.specs.Places.{term_count};
ghost use Rattle.table_layout.specs.Held.{term_words};
ghost use Rattle.table_wellformed.specs.Checks.{from_to};
ghost use Rattle.table_wellformed.specs.Lists.{list_start, list_end, own_start, own_end, begins as beginsOf, after as after_of, lists_begin, after_lists, lists_laid, formed as formedOf, list_formed, counts_formed, condition_formed, has_low, has_high, term_laid};

use crate::checks::{construct_word, limited};
use basis::MAX_VARIABLES;
use table_layout::{Construct, LITERALS_AT, OwnList, TERMS_AT, attributes_of, construct_at, word};
use term_sizes::{SizeError, measure, measure_counts};
use term_words::Kind;

fn list_start(own: OwnList) -> usize
    ensures { result ≡ list_start own }
{
    match own {
        OwnList::None => 0,
        OwnList::Counts { start, .. } | OwnList::Set { start, .. } => start,
    }
}

fn list_end(own: OwnList) -> usize
    ensures { result ≡ list_end own }
{
    match own {
        OwnList::None => 0,
        OwnList::Counts { end, .. } | OwnList::Set { end, .. } => end,
    }
}

// Where a construct's own list of terms begins.
pub fn own_start(construct: Construct) -> usize
    ensures { result ≡ own_start construct }
{
    list_start(attributes_of(construct).own)
}

// Where it ends.
pub fn own_end(construct: Construct) -> usize
    ensures { result ≡ own_end construct }
{
    list_end(attributes_of(construct).own)
}

fn begins(p: usize, start: usize, end: usize) -> bool
    ensures { result ≡ beginsOf p start end }
{
    end <= start || start == p
}

fn after(p: usize, start: usize, end: usize) -> usize
    ensures { result ≡ after_of p start end }
{
    if start < end { end } else { p }
}

fn lists_begin(table: &[u32], i: usize, p: usize) -> bool
    requires { i ≤ 4294967296 }
    ensures { result ≡ lists_begin table.now i p }
{
    let start = construct_word(table, i, 6);
    let end = construct_word(table, i, 7);
    let next = after(p, start, end);
    let construct = construct_at(table, i);
    begins(p, start, end) && begins(next, own_start(construct), own_end(construct))
}

fn after_lists(table: &[u32], i: usize, p: usize) -> usize
    requires { i ≤ 4294967296 }
    ensures { result ≡ after_lists table.now i p }
{
    let next = after(p, construct_word(table, i, 6), construct_word(table, i, 7));
    let construct = construct_at(table, i);
    after(next, own_start(construct), own_end(construct))
}

// Whether each list stands where the one before it ends, and the last ends at the number of terms.
pub fn lists(table: &[u32]) -> bool
    ensures { result ≡ lists_laid table.now }
{
    let count = word(table, 2);
    let mut p = 0;
    for i in 0..count {
        if !lists_begin(table, i, p) {
            return false;
        }
        p = after_lists(table, i, p);
    }
    p == word(table, 4)
}

// The words of the terms.
pub fn term_words(table: &[u32]) -> &[u32]
    requires { table_words ≤ length table.now }
    ensures { result.now ≡ term_words table.now }
{
    &table[TERMS_AT..LITERALS_AT]
}

fn formed(sized: Result<(), SizeError>) -> bool
    ensures { result ≡ formedOf sized }
{
    !matches!(sized, Err(SizeError::Malformed))
}

// Whether the terms from `start` up to `end` are well formed.
pub fn list_formed(kind: Kind, table: &[u32], start: usize, end: usize) -> bool
    requires { table_words ≤ length table.now }
    ensures { result ≡ list_formed kind table.now start end }
{
    let values = [0i64; MAX_VARIABLES];
    formed(measure(kind, term_words(table), start, end, &values))
}

pub fn counts_formed(table: &[u32], start: usize, end: usize) -> bool
    requires { table_words ≤ length table.now }
    ensures { result ≡ counts_formed table.now start end }
{
    let values = [0i64; MAX_VARIABLES];
    formed(measure_counts(term_words(table), start, end, &values))
}

pub fn condition_formed(table: &[u32], i: usize) -> bool
    requires { (table_words ≤ length table.now) × (i ≤ 4294967296) }
    ensures { result ≡ condition_formed table.now i }
{
    let start = construct_word(table, i, 6);
    let end = construct_word(table, i, 7);
    end <= start || list_formed(Kind::Condition, table, start, end)
}

fn low_used(tag: usize) -> bool
    ensures { result ≡ has_low tag }
{
    limited(1, tag, 2) || limited(33, tag, 34)
}

fn high_used(tag: usize) -> bool
    ensures { result ≡ has_high tag }
{
    tag == 1 || tag == 33
}

fn term(table: &[u32], t: usize) -> bool
    requires { t ≤ 4294967296 }
    ensures { result ≡ term_laid table.now t }
{
    let at = TERMS_AT + 3 * t;
    let tag = word(table, at);
    (low_used(tag) || word(table, at + 1) == 0) && (high_used(tag) || word(table, at + 2) == 0)
}

// Whether the words that a term does not use are 0.
pub fn terms_laid(table: &[u32]) -> bool
    ensures { result ≡ from_to 0 (term_count table.now) (term_laid table.now) }
{
    let count = word(table, 4);
    for t in 0..count {
        if !term(table, t) {
            return false;
        }
    }
    true
}
