// What constructs have in FIRST without their parts: it is worked out once, before the rounds.
ghost use Rattle.std.specs.Prelude.{◌≡◌, Bool, List, ℕ, ◌+◌, ◌-◌, ◌^◌, ◌≤◌, ◌<◌};
ghost use Rattle.table_first_follow.specs.Sets.{sets_held};
ghost use Rattle.basis.specs.Limits.{max_width};
ghost use Rattle.basis.specs.Patterns.{offset};
ghost use Rattle.lookahead.specs.Sets.{Is};
ghost use Rattle.table_layout.specs.Held.{held, term_words as termWords};
ghost use Rattle.table_first_follow.specs.Rules.{Seeded};
ghost use Rattle.table_first_follow.specs.Fields.{Numbered, Any, Window, Led, Named, Names};
ghost use Rattle.term_prefixes.specs.Prefixes.{Told};
ghost use Rattle.term_words.specs.declared.Term.{Term};

use crate::parts;
use crate::rules::term_words;
use lookahead::Set;
use table_layout::{Construct, LITERALS_AT, construct_at};

// The strings with numbers from `low` up to `high`.
fn numbered(low: usize, high: usize) -> Set
    ensures { Is result.words (Numbered low high Any) }
{
    let mut out = lookahead::empty();
    for n in low..high {
        out = lookahead::insert(out, n);
    }
    out
}

// A bit for each of 64 numbers from `first` on: whether the window of the number is marked.
fn word_of(marks: &[u8; 256], strings: u64, half: u64, first: u64) -> u64
    requires { (strings ≤ 256) × (half ≤ 128) × (first ≤ 448) }
    ensures { (width : ℕ) (signed : Bool) (i : ℕ) (xs : List Term) → strings ≡ 2 ^ (width - (width - 8)) → half ≡ offset signed (width - (width - 8)) → Told width signed i xs marks.now → Names (Window width signed i xs) first (first + 64) result }
{
    if first + 64 <= strings {
        return 0;
    }
    if strings + strings <= first {
        return 0;
    }
    let mut out = 0u64;
    let mut n = first + 64;
    while first < n {
        n -= 1;
        out *= 2;
        if term_prefixes::leads(marks, strings, half, n) {
            out += 1;
        }
    }
    out
}

// The strings that the patterns of a field's values begin with, signed or not.
fn leading(words: &[u32], start: usize, end: usize, width: u32, signed: bool) -> Set
    requires { width ≤ 64 }
    ensures { Is result.words (Named (Led width signed words.now start end)) }
{
    let marks = term_prefixes::first_windows(words, start, end, width, signed);
    let strings = term_prefixes::window_count(width);
    let half = term_prefixes::first_bit(width, signed);
    let mut out = [0u64; 8];
    for i in 0..8 {
        out[i] = word_of(&marks, strings, half, 64 * i as u64);
    }
    Set { words: out }
}

fn uint(table: &[u32], signed: bool, width: usize, start: usize, end: usize) -> Set
    requires { width ≤ max_width }
    ensures { Is result.words (Named (Led width signed (termWords table.now) start end)) }
{
    leading(term_words(table), start, end, width as u32, signed)
}

// The strings of construct i, if it is a field or eod; the empty one, if it is a switch without a default.
pub fn seed(table: &[u32], i: usize) -> Set
    requires { i < sets_held }
    ensures { Is result.words (Seeded ((held table.now).node i)) }
{
    match construct_at(table, i) {
        Construct::Missing => lookahead::empty(),
        Construct::Alternative { size: _ } => lookahead::empty(),
        Construct::Concatenation { size: _ } => lookahead::empty(),
        Construct::Repetition { size: _, passes: _ } => lookahead::empty(),
        Construct::Switch { size } => parts::neutral(parts::no_default(table, i + 1, i + size)),
        Construct::Use { rule: _ } => lookahead::empty(),
        Construct::Literal { length: _ } => {
            lookahead::single(256 + table_layout::word(table, LITERALS_AT + 8 * i) % 256)
        }
        Construct::Range { low, high } => numbered(256 + low, 257 + high),
        Construct::Uint {
            signed,
            width,
            start,
            end,
            binder: _,
        } => uint(table, signed, width, start, end),
        Construct::Eod => lookahead::single(1),
    }
}
