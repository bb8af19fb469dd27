// The stack of constructs still to be read.
ghost use Rattle.std.specs.Prelude.{◌≡◌, List, ◌∷◌, ◌++◌, ℕ, ◌<◌, replicate};
ghost use Rattle.basis.specs.Limits.{max_constructs};
ghost use Rattle.report_chain_steps.specs.Replayed.{no_depth, stack, past_eight};

use crate::NO_DEPTH;
use crate::words::number_at;

// Construct i on top of rows 1 to `depth`.
pub fn put(items: &mut [usize], depth: usize, i: usize) -> usize
    ensures { result < no_depth → (depth < no_depth) × (i < max_constructs) × ((ws : List ℕ) → stack ws items.new result ≡ i ∷ stack ws items.old depth) }
{
    if depth < 1000 && i < 256 && depth + 1 < items.len() {
        items[depth + 1] = i;
        return depth + 1;
    }
    NO_DEPTH
}

// The rows below the topmost, where that is construct b.
pub fn below_top(items: &[usize], depth: usize, b: usize) -> usize
    ensures { result < no_depth → (depth < no_depth) × ((ws : List ℕ) → stack ws items.now depth ≡ b ∷ stack ws items.now result) }
{
    if 0 < depth && depth < NO_DEPTH && b < 256 && number_at(items, depth) == b {
        return depth - 1;
    }
    NO_DEPTH
}

// The rows below n times construct b.
pub fn below_copies(items: &[usize], depth: usize, b: usize, n: usize) -> usize
    ensures { result < no_depth → (ws : List ℕ) → stack ws items.now depth ≡ replicate n b ++ stack ws items.now result }
{
    let mut d = depth;
    for _k in 0..n {
        d = below_top(items, d, b);
    }
    d
}

// The rows below the passes of repetition i past the eighth.
pub fn below_past_eight(items: &[usize], depth: usize, i: usize) -> usize
    ensures { result < no_depth → (ws : List ℕ) → stack ws items.now depth ≡ past_eight ws i ++ stack ws items.now result }
{
    if 0 < depth && depth < NO_DEPTH && i < 256 && number_at(items, depth) == 512 + i {
        return depth - 1;
    }
    NO_DEPTH
}
