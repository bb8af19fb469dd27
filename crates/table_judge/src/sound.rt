// Soundness of a table (23).
ghost use Rattle.std.specs.Prelude.{◌≡◌, true, ℕ, ◌≤◌, ◌<◌, length};
ghost use Rattle.basis.specs.Limits.{max_constructs, table_words};
ghost use Rattle.lookahead.specs.Sets.{Decides};
ghost use Rattle.table_layout.specs.Places.{construct_count};
ghost use Rattle.table_first_follow.specs.Sets.{FollowSets, PredictionSets, family_words};
ghost use Rattle.table_judge.specs.Sound.{Sound, SoundTable, SetsStand};

use crate::{formed, judge};
use basis::TABLE_WORDS;
use lookahead_slices::{family, narrow};
use table_first_follow::FAMILY_WORDS;
use table_layout::{SETS_AT, word};

// Whether construct i's two sets stand in the table word for word.
fn stands(table: &[u32], follow: &[u64], prediction: &[u64], i: usize) -> bool
    requires { (table_words ≤ length table.now) × (length follow.now ≡ family_words) × (length prediction.now ≡ family_words) × FollowSets table.now follow.now × PredictionSets table.now prediction.now × (i < max_constructs) }
    ensures { Decides result (SetsStand table.now i) }
{
    if narrow::same(table, SETS_AT + 32 * i, family::load(prediction, i)) {
        return narrow::same(table, SETS_AT + 32 * i + 16, family::load(follow, i));
    }
    false
}

// The same of every construct.
fn all_stand(table: &[u32], follow: &[u64], prediction: &[u64]) -> bool
    requires { (table_words ≤ length table.now) × (construct_count table.now ≤ max_constructs) × (length follow.now ≡ family_words) × (length prediction.now ≡ family_words) × FollowSets table.now follow.now × PredictionSets table.now prediction.now }
    ensures { Decides result ((i : ℕ) → i < construct_count table.now → SetsStand table.now i) }
{
    let count = word(table, 2);
    for i in 0..count {
        if !stands(table, follow, prediction, i) {
            return false;
        }
    }
    true
}

// Whether exactly these words are sound.
fn sound_words(table: &[u32]) -> bool
    ensures { Decides result (Sound table.now) }
{
    if !formed(table) {
        return false;
    }
    let mut first = [0u64; FAMILY_WORDS];
    let mut follow = [0u64; FAMILY_WORDS];
    let mut prediction = [0u64; FAMILY_WORDS];
    match judge(table, &mut first, &mut follow, &mut prediction) {
        Ok(weight) => weight == word(table, 5) && all_stand(table, &follow, &prediction),
        Err(_) => false,
    }
}

// Whether a table is sound. Words past 16,384 are not read.
pub fn sound(table: &[u32]) -> bool
    ensures { Decides result (SoundTable table.now) }
{
    if table.len() < TABLE_WORDS {
        return false;
    }
    sound_words(&table[0..16384])
}
