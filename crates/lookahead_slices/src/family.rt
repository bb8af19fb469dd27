// A family of sets in one lent slice of words, set i at 8 * i: an analysis keeps the sets of all constructs so.
ghost use Rattle.std.specs.Prelude.{◌≡◌, ◌+◌, ◌*◌, ◌≤◌, length};
ghost use Rattle.lookahead_slices.specs.Family.{part, Added, Stored};

use lookahead::Set;

pub fn load(family: &[u64], i: usize) -> Set
    requires { 8 * i + 8 ≤ length family.now }
    ensures { result.words ≡ part i family.now }
{
    let mut words = [0u64; 8];
    // Word by word: `copy_from_slice` of eight words asks whether they overlap, and goes over the stack.
    for k in 0..8 {
        words[k] = family[8 * i + k];
    }
    Set { words }
}

pub fn store(family: &mut [u64], i: usize, set: Set)
    requires { 8 * i + 8 ≤ length family.old }
    ensures { Stored family.old family.new i set.words }
{
    let x = set.words;
    for k in 0..8 {
        family[8 * i + k] = x[k];
    }
}

// A word is written only where it grows.
pub fn add(family: &mut [u64], i: usize, set: Set) -> bool
    requires { 8 * i + 8 ≤ length family.old }
    ensures { Added family.old family.new i set.words result }
{
    let x = set.words;
    let mut grew = false;
    for k in 0..8 {
        let old = family[8 * i + k];
        let new = old | x[k];
        if old < new {
            family[8 * i + k] = new;
            grew = true;
        }
    }
    grew
}
