// The rules: whose constructs and variables are whose.
ghost use Rattle.std.specs.Prelude.{◌≡◌, ◌≤◌, ◌<◌};
ghost use Rattle.table_layout.specs.Places.{rule_count};
ghost use Rattle.table_wellformed.specs.Checks.{from_to};
ghost use Rattle.table_wellformed.specs.Rules.{rule_end, rule_laid, rules_laid};

use crate::checks::{rule_word, size_at};
use crate::parts::unconditioned;
use table_layout::word;

// Where the constructs (k = 0) or the variables (k = 1) of rule r end.
pub fn rule_end(table: &[u32], r: usize, k: usize) -> usize
    requires { (r < 4294967296) × (k < 2) }
    ensures { (result ≡ rule_end table.now r k) × (result < 4294967296) }
{
    if r + 1 < word(table, 1) {
        return rule_word(table, r + 1, k);
    }
    word(table, 2 + k)
}

fn rule(table: &[u32], r: usize) -> bool
    requires { r < 4294967296 }
    ensures { result ≡ rule_laid table.now r }
{
    let body = rule_word(table, r, 0);
    let end = rule_end(table, r, 0);
    let variables = rule_word(table, r, 1) + rule_word(table, r, 2);
    body < end
        && body + size_at(table, body) == end
        && variables == rule_end(table, r, 1)
        && rule_word(table, r, 3) == 0
        && unconditioned(table, body)
}

fn each_rule(table: &[u32]) -> bool
    ensures { result ≡ from_to 0 (rule_count table.now) (rule_laid table.now) }
{
    let count = word(table, 1);
    for r in 0..count {
        if !rule(table, r) {
            return false;
        }
    }
    true
}

pub fn rules(table: &[u32]) -> bool
    ensures { result ≡ rules_laid table.now }
{
    rule_word(table, 0, 0) == 0 && rule_word(table, 0, 1) == 0 && each_rule(table)
}
