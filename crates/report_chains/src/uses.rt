// The use of a rule that what is left of the window goes on after.
use crate::strings::fits;
use report_measures::structure::is_use;
use report_measures::words::set_at;

// The first use of a rule after which the target may come.
pub fn use_before(
    table: &[u32],
    follow: &[u64],
    rule: usize,
    target: usize,
    whole: bool,
) -> Option<usize> {
    (0..256).find(|&j| is_use(table, j, rule) && fits(set_at(follow, j), target, whole))
}
