// The judgement of a table's words, 5 to 13 in order, and soundness (23).
#![tactic(auto)]

ghost use Rattle.std.specs.Prelude.{◌≡◌, true, length, Err, MatchResult};
ghost use Rattle.lookahead.specs.Sets.{Decides};
ghost use Rattle.table_wellformed.specs.Laid.{laid as laid_of};
ghost use Rattle.table_reach.specs.Reaching.{AllReached};
ghost use Rattle.table_first_follow.specs.Sets.{FirstSets, FollowSets, PredictionSets, family_words};
ghost use Rattle.table_judge.specs.Judged.{Passed8, Passed9, Passed10, Light, Valueless, None, Judged};
ghost use Rattle.table_judge.specs.Weighed.{Passed11};
ghost use Rattle.table_judge.specs.Clashing.{is_clash};

use basis::MAX_WEIGHT;
use table_conflicts::Clash;
use table_layout::word;

pub mod sound;

// What is wrong with words that pass 5 to 8, by the papers' numbers.
#[derive(Clone, Copy)]
pub enum Fault {
    // 9: a repeated body that may be empty
    EmptyBody { construct: usize },
    // 10
    Conflict { construct: usize, clash: Clash },
    // 11: a weight over 65,535
    Overweight,
    // 12: a rule that the start rule does not reach
    Unreached { rule: usize },
    // 13: a uint or sint without a value left
    NoValue { construct: usize },
}

// 7 and 8
fn measured(table: &[u32]) -> bool
    requires { laid_of table.now ≡ true }
    ensures { Decides result (Passed8 table.now) }
{
    match table_reach::recursive_rule(table) {
        None => table_sizes::first_oversized(table) == word(table, 2),
        Some(_) => false,
    }
}

// Whether words are laid out (5 and 6, where they apply), and pass 7 and 8.
pub fn formed(table: &[u32]) -> bool
    ensures { Decides result (Passed8 table.now) }
{
    table_wellformed::laid(table) && measured(table)
}

fn is_clash(clash: Clash) -> bool
    ensures { result ≡ is_clash clash }
{
    match clash {
        Clash::None => false,
        Clash::Branches {
            window: _,
            first: _,
            second: _,
        } => true,
        Clash::Passes { window: _ } => true,
    }
}

// 9: the first construct whose repeated body may be empty
fn judge_bodies(table: &[u32], first: &[u64]) -> Result<(), Fault>
    requires { Passed8 table.now × (length first.now ≡ family_words) × FirstSets table.now first.now }
    ensures { MatchResult result (λ x. Passed9 table.now) (λ fault. Judged table.now (Err fault)) }
{
    let count = word(table, 2);
    for i in 0..count {
        if table_conflicts::empty_body(table, first, i) {
            return Err(Fault::EmptyBody { construct: i });
        }
    }
    Ok(())
}

// 10: the first construct with a conflict
fn judge_conflicts(table: &[u32], follow: &[u64], prediction: &[u64]) -> Result<(), Fault>
    requires { Passed9 table.now × (length follow.now ≡ family_words) × (length prediction.now ≡ family_words) × FollowSets table.now follow.now × PredictionSets table.now prediction.now }
    ensures { MatchResult result (λ x. Passed10 table.now) (λ fault. Judged table.now (Err fault)) }
{
    let count = word(table, 2);
    for i in 0..count {
        let clash = table_conflicts::conflict(table, follow, prediction, i);
        if is_clash(clash) {
            return Err(Fault::Conflict {
                construct: i,
                clash,
            });
        }
    }
    Ok(())
}

// 11: the grammar's weight
fn judge_weight(table: &[u32]) -> Result<usize, Fault>
    requires { Passed10 table.now }
    ensures { MatchResult result (Passed11 table.now) (λ fault. Judged table.now (Err fault)) }
{
    let weight = table_weights::weigh(table).grammar;
    if MAX_WEIGHT < weight {
        return Err(Fault::Overweight);
    }
    Ok(weight)
}

// 12: the first rule that is not reached
fn judge_reach(table: &[u32]) -> Result<(), Fault>
    requires { Passed10 table.now × Light table.now }
    ensures { MatchResult result (λ x. AllReached table.now) (λ fault. Judged table.now (Err fault)) }
{
    match table_reach::unreached_rule(table) {
        None => Ok(()),
        Some(rule) => Err(Fault::Unreached { rule }),
    }
}

// 13: the first uint or sint that has no value left
fn judge_values(table: &[u32], first: &[u64]) -> Result<(), Fault>
    requires { Passed10 table.now × Light table.now × AllReached table.now × (length first.now ≡ family_words) × FirstSets table.now first.now }
    ensures { MatchResult result (λ x. None (Valueless table.now)) (λ fault. Judged table.now (Err fault)) }
{
    let count = word(table, 2);
    for i in 0..count {
        if table_conflicts::no_value(table, first, i) {
            return Err(Fault::NoValue { construct: i });
        }
    }
    Ok(())
}

// 9 to 13 in order; the weight, where nothing is wrong. Not inlined, so that its frame does not stand on that of the sets' making.
#[inline(never)]
fn judge_words(
    table: &[u32],
    first: &[u64],
    follow: &[u64],
    prediction: &[u64],
) -> Result<usize, Fault>
    requires { Passed8 table.now × (length first.now ≡ family_words) × (length follow.now ≡ family_words) × (length prediction.now ≡ family_words) × FirstSets table.now first.now × FollowSets table.now follow.now × PredictionSets table.now prediction.now }
    ensures { Judged table.now result }
{
    judge_bodies(table, first)?;
    judge_conflicts(table, follow, prediction)?;
    let weight = judge_weight(table)?;
    judge_reach(table)?;
    judge_values(table, first)?;
    Ok(weight)
}

// The judgement of words that pass 5 to 8. Their grammar's sets are left in the arrays.
pub fn judge(
    table: &[u32],
    first: &mut [u64],
    follow: &mut [u64],
    prediction: &mut [u64],
) -> Result<usize, Fault>
    requires { Passed8 table.now × (length first.old ≡ family_words) × (length follow.old ≡ family_words) × (length prediction.old ≡ family_words) }
    ensures judged { Judged table.now result }
    ensures first_sets { FirstSets table.now first.new }
    ensures follow_sets { FollowSets table.now follow.new × PredictionSets table.now prediction.new }
{
    table_first_follow::prediction::all(table, first, follow, prediction);
    judge_words(table, first, follow, prediction)
}
