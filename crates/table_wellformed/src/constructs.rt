// Constructs by their kind.
ghost use Rattle.std.specs.Prelude.{◌≡◌, ◌≤◌, ◌<◌, ◌^◌, length};
ghost use Rattle.basis.specs.Limits.{max_constructs, max_literal_bytes, table_words};
ghost use Rattle.table_layout.specs.Places.{construct_count};
ghost use Rattle.table_wellformed.specs.Checks.{from_to};
ghost use Rattle.table_wellformed.specs.Laid.{operands_zero, second_part, construct_end, chain_laid, passes_laid, repetition_laid, switch_laid, kind_laid, literal_length, literal_byte, byte_laid, construct_laid};

use crate::checks::{size_at, zeros};
use crate::lists::{condition_formed, counts_formed, list_formed};
use crate::names::named_back;
use crate::parts::parts;
use basis::MAX_LITERAL_BYTES;
use table_layout::{
    CONSTRUCTS_AT, Construct, LITERALS_AT, Passes, attributes_of, construct_at, word,
};
use term_words::Kind;

// Whether the operands of construct i from word k on are 0.
fn operands_zero(table: &[u32], i: usize, k: usize) -> bool
    requires { (i ≤ 4294967296) × (k < 8) }
    ensures { result ≡ operands_zero table.now i k }
{
    let at = CONSTRUCTS_AT + 8 * i;
    zeros(table, at + k, at + 6)
}

fn second_part(table: &[u32], i: usize) -> usize
    requires { i ≤ 4294967296 }
    ensures { result ≡ second_part table.now i }
{
    i + 1 + size_at(table, i + 1)
}

// An alternative or a concatenation.
fn chain(table: &[u32], i: usize) -> bool
    requires { i ≤ max_constructs }
    ensures { result ≡ chain_laid table.now i }
{
    let end = i + size_at(table, i);
    operands_zero(table, i, 2) && second_part(table, i) < end && parts(table, false, i + 1, end)
}

fn passes_laid(table: &[u32], i: usize, passes: Passes) -> bool
    requires { (table_words ≤ length table.now) × (i ≤ max_constructs) }
    ensures { result ≡ passes_laid table.now i passes }
{
    match passes {
        Passes::Counted { start, end } => {
            operands_zero(table, i, 5) && counts_formed(table, start, end)
        }
        _ => operands_zero(table, i, 3),
    }
}

fn repetition(table: &[u32], i: usize, passes: Passes) -> bool
    requires { (table_words ≤ length table.now) × (i ≤ max_constructs) }
    ensures { result ≡ repetition_laid table.now i passes }
{
    let end = i + size_at(table, i);
    passes_laid(table, i, passes) && second_part(table, i) == end && parts(table, false, i + 1, end)
}

fn switch(table: &[u32], i: usize) -> bool
    requires { i ≤ max_constructs }
    ensures { result ≡ switch_laid table.now i }
{
    let end = i + size_at(table, i);
    operands_zero(table, i, 2) && parts(table, true, i + 1, end)
}

fn kind(table: &[u32], i: usize, construct: Construct) -> bool
    requires { (table_words ≤ length table.now) × (i ≤ max_constructs) }
    ensures { result ≡ kind_laid table.now i construct }
{
    match construct {
        Construct::Missing => false,
        Construct::Alternative { .. } | Construct::Concatenation { .. } => chain(table, i),
        Construct::Repetition { passes, .. } => repetition(table, i, passes),
        Construct::Switch { .. } => switch(table, i),
        Construct::Use { rule } => rule < word(table, 1) && operands_zero(table, i, 3),
        Construct::Literal { .. } => operands_zero(table, i, 3),
        Construct::Range { .. } => operands_zero(table, i, 4),
        Construct::Uint {
            start,
            end,
            binder,
            ..
        } => named_back(table, i, binder) && list_formed(Kind::Set, table, start, end),
        Construct::Eod => operands_zero(table, i, 2),
    }
}

fn literal_length(construct: Construct) -> usize
    ensures { result ≡ literal_length construct }
{
    attributes_of(construct).length
}

fn power(k: usize) -> usize
    requires { k < 4 }
    ensures { (result ≡ 256 ^ k) × (0 < result) }
{
    match k {
        0 => 1,
        1 => 256,
        2 => 65536,
        _ => 16777216,
    }
}

fn byte(table: &[u32], i: usize, n: usize, k: usize) -> bool
    requires { (i ≤ 4294967296) × (k < max_literal_bytes) }
    ensures { result ≡ byte_laid table.now i n k }
{
    let value = word(table, LITERALS_AT + 8 * i + k / 4) / power(k % 4) % 256;
    let limit = if k < n { 128 } else { 1 };
    value < limit
}

// Whether construct i has n bytes below 128 in the area of literals, and zeros after them.
fn bytes(table: &[u32], i: usize, n: usize) -> bool
    requires { i ≤ 4294967296 }
    ensures { result ≡ from_to 0 max_literal_bytes (byte_laid table.now i n) }
{
    for k in 0..MAX_LITERAL_BYTES {
        if !byte(table, i, n, k) {
            return false;
        }
    }
    true
}

fn construct_laid(table: &[u32], i: usize) -> bool
    requires { (table_words ≤ length table.now) × (i ≤ max_constructs) }
    ensures { result ≡ construct_laid table.now i }
{
    let construct = construct_at(table, i);
    kind(table, i, construct)
        && bytes(table, i, literal_length(construct))
        && condition_formed(table, i)
}

pub fn constructs(table: &[u32]) -> bool
    requires { (table_words ≤ length table.now) × (construct_count table.now ≤ max_constructs) }
    ensures { result ≡ from_to 0 (construct_count table.now) (construct_laid table.now) }
{
    let count = word(table, 2);
    for i in 0..count {
        if !construct_laid(table, i) {
            return false;
        }
    }
    true
}
