// Refusal 9: the least mark of a repetition whose body may be empty.
ghost use Rattle.std.specs.Prelude.{◌≡◌, true, ◌≤◌, ◌<◌, length};
ghost use Rattle.text_store.specs.Words.{nodes_room};
ghost use Rattle.table_layout.specs.Places.{construct_count};
ghost use Rattle.table_wellformed.specs.Laid.{laid as laid_of};
ghost use Rattle.table_first_follow.specs.Sets.{FirstSets, family_words};
ghost use Rattle.text_admission.specs.Late.{Marks};

use text_names::counting::{min, place_if};
use text_store::MARK_PLACE;
use text_store::words::node_word;

pub fn least_mark(table: &[u32], first: &[u64], nodes: &[usize]) -> usize
    requires { (laid_of table.now ≡ true) × (length first.now ≡ family_words) × FirstSets table.now first.now × (length nodes.now ≡ nodes_room) }
    ensures { Marks nodes.now table.now (construct_count table.now) result }
{
    let count = table_layout::word(table, 2);
    let mut least = 18446744073709551615;
    for i in 0..count {
        let empty = table_conflicts::empty_body(table, first, i);
        least = min(least, place_if(empty, node_word(nodes, i, MARK_PLACE)));
    }
    least
}
