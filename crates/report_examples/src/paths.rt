// The way from the start rule down to a construct, by the first use of each rule.
use report_measures::reach::use_from;
use report_measures::structure::{parent_of, rule_of};
use report_measures::words::put_number;

// What stands above construct i: what holds it, or the first use of the rule whose body it is.
fn above(table: &[u32], i: usize) -> Option<usize> {
    match parent_of(table, i) {
        Some(p) => Some(p),
        None => use_from(table, rule_of(table, i)?, 0),
    }
}

// Construct i and all above it, one after the other, up to the start rule's expression; how many there are, where the way leads there.
pub fn path(table: &[u32], i: usize, out: &mut [usize]) -> Option<usize> {
    let mut at = i;
    for n in 0..255 {
        if 255 < at {
            return None;
        }
        put_number(out, n, at);
        if at == 0 {
            return Some(n + 1);
        }
        at = above(table, at)?;
    }
    None
}
