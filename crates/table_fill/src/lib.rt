// A table is completed: where the words pass the judgement, their grammar's sets and weight are written into them.
#![tactic(auto)]

ghost use Rattle.std.specs.Prelude.{◌≡◌, ◌≤◌, length, set};
ghost use Rattle.basis.specs.Limits.{max_constructs, max_weight};
ghost use Rattle.table_layout.specs.Places.{table_words};
ghost use Rattle.table_first_follow.specs.Sets.{FirstSets, family_words};
ghost use Rattle.table_judge.specs.Judged.{Passed8, Judged};
ghost use Rattle.table_fill.specs.Completed.{SetsWritten, Completed};

use lookahead_slices::{family, narrow};
use table_first_follow::FAMILY_WORDS;
use table_judge::Fault;
use table_layout::{SETS_AT, word};

// The two sets of the first `count` constructs.
fn write_sets(table: &mut [u32], follow: &[u64], prediction: &[u64], count: usize)
    requires { (table_words ≤ length table.old) × (length follow.now ≡ family_words) × (length prediction.now ≡ family_words) × (count ≤ max_constructs) }
    ensures { SetsWritten table.old table.new follow.now prediction.now count }
{
    for i in 0..count {
        narrow::put(table, SETS_AT + 32 * i, family::load(prediction, i));
        narrow::put(table, SETS_AT + 32 * i + 16, family::load(follow, i));
    }
}

fn write_weight(table: &mut [u32], weight: usize)
    requires { (table_words ≤ length table.old) × (weight ≤ max_weight) }
    ensures { table.new ≡ set table.old 5 weight }
{
    table[5] = weight as u32;
}

// Judges words that pass 5 to 8 and completes those that pass. The weight's word and the sets' words may hold anything that is laid out;
// the FIRST sets are left in `first`.
pub fn complete(table: &mut [u32], first: &mut [u64]) -> Result<usize, Fault>
    requires { Passed8 table.old × (length first.old ≡ family_words) }
    ensures judged { Judged table.old result × FirstSets table.old first.new }
    ensures completed { Completed table.old table.new result }
{
    let mut follow = [0u64; FAMILY_WORDS];
    let mut prediction = [0u64; FAMILY_WORDS];
    let weight = table_judge::judge(table, first, &mut follow, &mut prediction)?;
    let count = word(table, 2);
    write_sets(table, &follow, &prediction, count);
    write_weight(table, weight);
    Ok(weight)
}
