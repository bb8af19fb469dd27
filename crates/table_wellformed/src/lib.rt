// What is well laid out (docs/TABLE.md), asked of any words.
#![tactic(auto)]

ghost use Rattle.std.specs.Prelude.{◌≡◌, ◌≤◌, length};
ghost use Rattle.basis.specs.Limits.{max_constructs, table_words};
ghost use Rattle.table_layout.specs.Places.{construct_count};
ghost use Rattle.table_wellformed.specs.Laid.{counts_limited, headed as headedOf, rest_zero, placed as placed_of, laid as laid_of};

use crate::checks::{limited, zeros};
use crate::constructs::constructs;
use crate::lists::{lists, terms_laid};
use crate::names::names;
use crate::rules::rules;
use basis::{MAX_CONSTRUCTS, MAX_RULES, MAX_TERMS, MAX_VARIABLES, MAX_WEIGHT, TABLE_WORDS};
use table_layout::{CONSTRUCTS_AT, LITERALS_AT, RULES_AT, SETS_AT, TERMS_AT, VARIABLES_AT, word};

pub mod checks;
mod constructs;
pub mod lists;
mod names;
mod parts;
mod rules;

fn counts(table: &[u32]) -> bool
    ensures { result ≡ counts_limited table.now }
{
    limited(1, word(table, 1), MAX_RULES)
        && limited(1, word(table, 2), MAX_CONSTRUCTS)
        && word(table, 3) <= MAX_VARIABLES
        && word(table, 4) <= MAX_TERMS
}

#[tactic(auto, unfolding(crate::specs::Laid::headed))]
fn headed(table: &[u32]) -> bool
    ensures { result ≡ headedOf table.now }
{
    word(table, 0) == 1399811687
        && counts(table)
        && limited(1, word(table, 5), MAX_WEIGHT)
        && zeros(table, 6, RULES_AT)
}

// Everything past the counts is 0.
fn rest(table: &[u32]) -> bool
    ensures { result ≡ rest_zero table.now }
{
    let constructs = word(table, 2);
    zeros(table, RULES_AT + 4 * word(table, 1), VARIABLES_AT)
        && zeros(table, VARIABLES_AT + 4 * word(table, 3), CONSTRUCTS_AT)
        && zeros(table, CONSTRUCTS_AT + 8 * constructs, TERMS_AT)
        && zeros(table, TERMS_AT + 3 * word(table, 4), LITERALS_AT)
        && zeros(table, LITERALS_AT + 8 * constructs, SETS_AT)
        && zeros(table, SETS_AT + 32 * constructs, TABLE_WORDS)
}

#[tactic(auto, unfolding(crate::specs::Laid::placed))]
fn placed(table: &[u32]) -> bool
    requires { (table_words ≤ length table.now) × (construct_count table.now ≤ max_constructs) }
    ensures { result ≡ placed_of table.now }
{
    rest(table) && rules(table) && constructs(table) && lists(table) && terms_laid(table)
}

// Whether a table is laid out as docs/TABLE.md says, its sets and its weight apart.
#[tactic(auto, unfolding(crate::specs::Laid::laid))]
pub fn laid(table: &[u32]) -> bool
    ensures { result ≡ laid_of table.now }
{
    TABLE_WORDS <= table.len() && headed(table) && placed(table) && names(table)
}
