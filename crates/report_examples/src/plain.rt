// Tables whose FIRST and FOLLOW say no more than frames have: without variables, switches, something after an eod and, where asked, rules that are used twice.
use report_measures::counts::varies;
use report_measures::structure::is_use;
use report_measures::words::set_at;
use table_layout::{Construct, construct_at};

// An eod after which more than the frame's end may come: windows join what stands there, and no frame has it.
fn is_inner_end(table: &[u32], follow: &[u64], i: usize) -> bool {
    matches!(construct_at(table, i), Construct::Eod)
        && !lookahead::equal(set_at(follow, i), lookahead::single(1))
}

fn is_plain(table: &[u32], follow: &[u64], i: usize) -> bool {
    !matches!(construct_at(table, i), Construct::Switch { .. })
        && !is_inner_end(table, follow, i)
        && !varies(table, i)
}

// No construct is a switch or an eod before something else, or has a variable in its set or counts.
pub fn plain(table: &[u32], follow: &[u64]) -> bool {
    (0..256).all(|i| is_plain(table, follow, i))
}

fn uses(table: &[u32], rule: usize) -> usize {
    (0..256).filter(|&i| is_use(table, i, rule)).count()
}

// No rule is used more than once.
pub fn used_once(table: &[u32]) -> bool {
    (0..64).all(|rule| uses(table, rule) <= 1)
}
