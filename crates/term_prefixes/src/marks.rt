// Marks for the windows of values that are in a set.
ghost use Rattle.std.specs.Prelude.{◌≡◌, Bool, ℕ, ◌+◌, ◌*◌, ◌-◌, ◌^◌, ◌≤◌, ◌<◌, eqb, length, get_or};
ghost use Rattle.term_words.specs.Words.{terms};
ghost use Rattle.term_membership.specs.Members.{holds_from};
ghost use Rattle.term_prefixes.specs.Marks.{Sought, Among, Least, Filled};

use term_integers::power;
use term_membership::contains_all;

// The bits of a field that its first window leaves out.
pub fn hidden(width: u32) -> u32
    ensures { result ≡ width - 8 }
{
    if 8 < width { width - 8 } else { 0 }
}

// The last number of a width.
fn last_of(width: u32) -> u64
    requires { width ≤ 64 }
    ensures { result + 1 ≡ 2 ^ width }
{
    if width < 64 {
        return power(width as u64) - 1;
    }
    18446744073709551615
}

// Marks the window of a value of the width that is in a set: `truth` is 3.
fn mark(marks: &mut [u8; 256], width: u32, last: u64, shift: u32, value: u64, truth: u64)
    requires { (width ≤ 64) × (length marks.old ≡ 256) × (last + 1 ≡ 2 ^ width) × (shift ≡ width - 8) }
    ensures { (f : ℕ → Bool) → f value ≡ eqb truth 3 → Sought f width (λ (v : ℕ). value ≡ v) marks.old marks.new }
{
    if truth == 3 {
        if value <= last {
            let window = (value >> shift) as usize;
            marks[window] = 1;
        }
    }
}

fn mark_all(values: &[u64; 64], truths: &[u64; 64], width: u32, marks: &mut [u8; 256])
    requires { (width ≤ 64) × (length marks.old ≡ 256) }
    ensures { (f : ℕ → Bool) → ((j : ℕ) → j < 64 → f (get_or values.now j 0) ≡ eqb (get_or truths.now j 0) 3) → Sought f width (Among values.now 64) marks.old marks.new }
{
    let last = last_of(width);
    let shift = hidden(width);
    for j in 0..64 {
        mark(marks, width, last, shift, values[j], truths[j]);
    }
}

// Tries 64 values, and marks the windows of those that are in the set.
pub fn settle(
    words: &[u32],
    start: usize,
    end: usize,
    variables: &[i64],
    width: u32,
    offset: u64,
    values: &[u64; 64],
    marks: &mut [u8; 256],
)
    requires { (width ≤ 64) × (offset ≤ 2 ^ 63) × (length marks.old ≡ 256) }
    ensures { Sought (holds_from offset variables.now start (terms words.now start end)) width (Among values.now 64) marks.old marks.new }
{
    let truths = contains_all(words, start, end, variables, offset, values);
    mark_all(values, &truths, width, marks);
}

// The least values of 64 windows from `first` on.
fn fill(values: &mut [u64; 64], first: u64, block: u64)
    requires { (length values.old ≡ 64) × (first ≤ 192) × (block ≤ 2 ^ 56) }
    ensures { Filled first block 64 values.new }
{
    for j in 0..64 {
        values[j] = (first + j as u64) * block;
    }
}

// Tries the least value of each window.
pub fn least_values(
    words: &[u32],
    start: usize,
    end: usize,
    variables: &[i64],
    width: u32,
    offset: u64,
    marks: &mut [u8; 256],
)
    requires { (width ≤ 64) × (offset ≤ 2 ^ 63) × (length marks.old ≡ 256) }
    ensures { Sought (holds_from offset variables.now start (terms words.now start end)) width (Least width 256) marks.old marks.new }
{
    let shift = hidden(width);
    let block = power(shift as u64);
    let mut values = [0u64; 64];
    for i in 0u64..4 {
        fill(&mut values, 64 * i, block);
        settle(words, start, end, variables, width, offset, &values, marks);
    }
}
