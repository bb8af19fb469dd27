// Prediction sets (document 01's windows of a branch), and all three families together.
ghost use Rattle.std.specs.Prelude.{◌≡◌, length};
ghost use Rattle.table_first_follow.specs.Sets.{FirstSets, FollowSets, PredictionSets, family_words};
ghost use Rattle.table_first_follow.specs.Follows.{JoinedSets};

use crate::{SETS_HELD, first, follow, order, parts};

fn join_all(first: &[u64], follow: &[u64], family: &mut [u64])
    requires { (length first.now ≡ family_words) × (length follow.now ≡ family_words) × (length family.old ≡ family_words) }
    ensures { JoinedSets first.now follow.now family.new }
{
    for i in 0..SETS_HELD {
        let set = lookahead::join(parts::set_of(first, i), parts::set_of(follow, i));
        lookahead_slices::family::store(family, i, set);
    }
}

// FIRST, FOLLOW and prediction sets of the grammar that a table's words hold; what the three families were does not matter.
pub fn all(table: &[u32], first: &mut [u64], follow: &mut [u64], prediction: &mut [u64])
    requires { (length first.old ≡ family_words) × (length follow.old ≡ family_words) × (length prediction.old ≡ family_words) }
    ensures first_sets { FirstSets table.now first.new }
    ensures follow_sets { FollowSets table.now follow.new }
    ensures prediction_sets { PredictionSets table.now prediction.new }
{
    let mut places = [SETS_HELD; SETS_HELD];
    order::fill(table, &mut places);
    first::first_in_order(table, &places, first);
    follow::follow(table, &places, first, follow);
    join_all(first, follow, prediction);
}
