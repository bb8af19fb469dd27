// Refusal 8 over a table's words: which lists of terms have sizes that may pass 2^62, with every variable at its widest.
#![tactic(auto)]

ghost use Rattle.std.specs.Prelude.{◌≡◌, true, ℕ, ◌-◌, ◌≤◌, ◌<◌, min, length};
ghost use Rattle.basis.specs.Limits.{table_words, max_bound_width};
ghost use Rattle.table_layout.specs.Places.{construct_count};
ghost use Rattle.table_layout.specs.Constructs.{construct_at};
ghost use Rattle.table_sizes.specs.Measures.{largest as largestOf, widest as widestOf, condition_size, list_size, own_size, exceeds as exceedsOf, oversized as oversizedOf, LeastOf};

use basis::{MAX_BOUND_WIDTH, MAX_VARIABLES};
use table_layout::{OwnList, attributes_of, construct_at, word};
use table_wellformed::checks::{construct_word, variable_word};
use table_wellformed::lists::term_words;
use term_integers::{power, signed};
use term_sizes::{SizeError, measure, measure_counts};
use term_words::Kind;

// A width within the limit of a binder.
fn bound_width(width: usize) -> u64
    ensures { result ≡ min max_bound_width width }
{
    width.min(MAX_BOUND_WIDTH) as u64
}

fn one_less(width: u64) -> u64
    ensures { result ≡ (width - 1) }
{
    width.saturating_sub(1)
}

// The size of the value of a width that is farthest from 0.
fn largest(width: usize, sign: usize) -> i64
    ensures { result ≡ largestOf width sign }
{
    let most = bound_width(width);
    if 0 < sign {
        return signed(power(one_less(most)));
    }
    signed(power(most) - 1)
}

// The size of each variable.
#[derive(Clone, Copy)]
pub struct Extents {
    pub sizes: [i64; MAX_VARIABLES],
}

pub fn widest(table: &[u32]) -> Extents
    ensures { result.sizes ≡ widestOf table.now }
{
    let mut sizes = [0i64; MAX_VARIABLES];
    for x in 0..MAX_VARIABLES {
        sizes[x] = largest(variable_word(table, x, 1), variable_word(table, x, 2));
    }
    Extents { sizes }
}

// The sizes in a construct's condition.
pub fn condition_sizes(
    table: &[u32],
    widest: &[i64; MAX_VARIABLES],
    i: usize,
) -> Result<(), SizeError>
    requires { (table_words ≤ length table.now) × (i ≤ 4294967296) × (widest.now ≡ widestOf table.now) }
    ensures { result ≡ condition_size table.now i }
{
    let start = construct_word(table, i, 6);
    let end = construct_word(table, i, 7);
    if start < end {
        return measure(Kind::Condition, term_words(table), start, end, widest);
    }
    Ok(())
}

fn list_sizes(table: &[u32], widest: &[i64; MAX_VARIABLES], own: OwnList) -> Result<(), SizeError>
    requires { (table_words ≤ length table.now) × (widest.now ≡ widestOf table.now) }
    ensures { result ≡ list_size table.now own }
{
    match own {
        OwnList::None => Ok(()),
        OwnList::Counts { start, end } => measure_counts(term_words(table), start, end, widest),
        OwnList::Set { start, end } => measure(Kind::Set, term_words(table), start, end, widest),
    }
}

// The sizes in its own list of terms.
pub fn own_sizes(table: &[u32], widest: &[i64; MAX_VARIABLES], i: usize) -> Result<(), SizeError>
    requires { (table_words ≤ length table.now) × (widest.now ≡ widestOf table.now) }
    ensures { result ≡ own_size table.now (construct_at table.now i) }
{
    list_sizes(table, widest, attributes_of(construct_at(table, i)).own)
}

fn exceeds(sized: Result<(), SizeError>) -> bool
    ensures { result ≡ exceedsOf sized }
{
    matches!(sized, Err(SizeError::Exceeds(_)))
}

// Whether a size in one of its lists may pass 2^62.
fn oversized(table: &[u32], widest: &[i64; MAX_VARIABLES], i: usize) -> bool
    requires { (table_words ≤ length table.now) × (i ≤ 4294967296) × (widest.now ≡ widestOf table.now) }
    ensures { result ≡ oversizedOf table.now i }
{
    exceeds(condition_sizes(table, widest, i)) || exceeds(own_sizes(table, widest, i))
}

// The first construct with such a size; their number where there is none.
pub fn first_oversized(table: &[u32]) -> usize
    requires { table_words ≤ length table.now }
    ensures { LeastOf (λ (i : ℕ). oversizedOf table.now i ≡ true) (construct_count table.now) result }
{
    search(table, &widest(table).sizes)
}

fn search(table: &[u32], widest: &[i64; MAX_VARIABLES]) -> usize
    requires { (table_words ≤ length table.now) × (widest.now ≡ widestOf table.now) }
    ensures { LeastOf (λ (i : ℕ). oversizedOf table.now i ≡ true) (construct_count table.now) result }
{
    let count = word(table, 2);
    for i in 0..count {
        if oversized(table, widest, i) {
            return i;
        }
    }
    count
}
