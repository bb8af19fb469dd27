// Which leading bits the patterns of a set's values have, signed or not. Values are counted from the least of the width on, so that they are natural
// numbers in their order; of a signed pattern this turns the first bit. A set changes only at the first value of an item and at the first after it, so that few values
// are tried: these, and the least of each window. They are tried 64 at a time.
#![tactic(auto)]

mod marks;
mod tries;

ghost use Rattle.std.specs.Prelude.{Bool, List, ◌≡◌, ℕ, ◌-◌, ◌^◌, ◌≤◌, ◌<◌};
ghost use Rattle.basis.specs.Patterns.{offset, halves_swapped};
ghost use Rattle.term_words.specs.Words.{terms};
ghost use Rattle.term_words.specs.declared.Term.{Term};
ghost use Rattle.term_membership.specs.Members.{holds_from};
ghost use Rattle.term_prefixes.specs.Prefixes.{Tells, Told, ToldBy};

use crate::marks::{hidden, least_values, settle};
use crate::tries::try_changes;
use term_evaluation::patterns::offset_of;
use term_evaluation::variables::has_variable;
use term_integers::power;

// The values that wait to be tried, the first `waiting` of these, and the windows that are marked so far.
#[derive(Clone, Copy)]
pub struct Tried {
    values: [u64; 64],
    waiting: usize,
    marks: [u8; 256],
}

// The windows of a set.
fn windows_of(
    words: &[u32],
    start: usize,
    end: usize,
    variables: &[i64],
    width: u32,
    offset: u64,
) -> [u8; 256]
    requires { (width ≤ 64) × (offset ≤ 2 ^ 63) }
    ensures { ToldBy width (holds_from offset variables.now start (terms words.now start end)) result }
{
    let mut least = [0u8; 256];
    least_values(words, start, end, variables, width, offset, &mut least);
    let last = try_changes(
        words,
        start,
        end,
        variables,
        width,
        offset,
        Tried {
            values: [0; 64],
            waiting: 0,
            marks: least,
        },
    );
    let values = last.values;
    let mut marks = last.marks;
    settle(
        words, start, end, variables, width, offset, &values, &mut marks,
    );
    marks
}

// A mark for each first window of a field of a width, signed or not, with a set; a set with a variable counts as `~`. No field is wider than 64 bits.
pub fn first_windows(words: &[u32], start: usize, end: usize, width: u32, signed: bool) -> [u8; 256]
    ensures { width ≤ 64 → Told width signed start (terms words.now start end) result }
{
    if 64 < width {
        return [0; 256];
    }
    if has_variable(words, start, end) {
        return [1; 256];
    }
    let none = [0i64; 1];
    let offset = offset_of(width, signed);
    windows_of(words, start, end, &none[0..0], width, offset)
}

// How many first windows the fields of a width have.
pub fn window_count(width: u32) -> u64
    requires { width ≤ 64 }
    ensures { (result ≡ 2 ^ (width - (width - 8))) × (result ≤ 256) }
{
    let shift = hidden(width);
    power((width - shift) as u64)
}

// The first bit of a signed field's window, as a number; else 0.
pub fn first_bit(width: u32, signed: bool) -> u64
    requires { width ≤ 64 }
    ensures { (result ≡ offset signed (width - (width - 8))) × (result ≤ 128) }
{
    let shift = hidden(width);
    offset_of(width - shift, signed)
}

// The first bit turned: numbers below `half` and those from it on change places.
fn swapped(half: u64, number: u64) -> u64
    requires { (half ≤ 128) × (number < 256) }
    ensures { (result ≡ halves_swapped half number) × (result < 256) }
{
    if number < half {
        return number + half;
    }
    number - half
}

// Whether the window of a number is marked. The number of windows and their first bit are those of the field, worked out once for all of its windows.
pub fn leads(marks: &[u8; 256], strings: u64, half: u64, number: u64) -> bool
    requires { (strings ≤ 256) × (half ≤ 128) }
    ensures { (width : ℕ) (signed : Bool) (i : ℕ) (xs : List Term) → strings ≡ 2 ^ (width - (width - 8)) → half ≡ offset signed (width - (width - 8)) → Told width signed i xs marks.now → Tells width signed i xs number result }
{
    if number < strings {
        return false;
    }
    let leading = number - strings;
    if strings <= leading {
        return false;
    }
    let turned = swapped(half, leading);
    0 < marks[turned as usize]
}
