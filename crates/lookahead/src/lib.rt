// Sets of lookahead strings (document 01's windows) as eight words: the string with number n is bit n % 64 of word n / 64.
// Bit 0 of word 0 names no string: no function counts it, and every set that is returned has it clear, so that two of these
// have the same strings exactly where they have the same words.
#![tactic(auto)]

ghost use Rattle.std.specs.Prelude.{◌≡◌, true, [], ◌+◌, ◌*◌, ◌<◌, ◌≤◌, length};
ghost use Rattle.basis.specs.Bits.{Bits, bits_of};
ghost use Rattle.basis.specs.Lookahead.{lookahead, number};
ghost use Rattle.lookahead.specs.Inner.{OnlyLong};
ghost use Rattle.lookahead.specs.Sets.{Has, Is, Proper, Decides, Union, Joined, SameWords};
ghost use Rattle.lookahead.specs.Least.{LeastCommon};

pub mod passes;
mod pieces;
mod prefixes;
pub mod spans;
pub mod words;

#[derive(Clone, Copy)]
pub struct Set {
    pub words: [u64; 8],
}

// The number of a field's lookahead string: its leading 8 bits, or all of them if there are fewer, most significant bit first.
pub fn number_of(value: u32, width: u32) -> usize
    ensures { result ≡ number (lookahead (bits_of width value)) }
{
    if width <= 8 {
        return (1usize << width) + (value % (1u32 << width)) as usize;
    }
    if width < 40 {
        return 256 + ((value >> (width - 8)) % 256) as usize;
    }
    256
}

pub fn empty() -> Set
    ensures { Is result.words (λ (s : Bits). ⊥) }
{
    Set { words: [0; 8] }
}

// The string with number n; nothing where n is no string's.
pub fn single(n: usize) -> Set
    ensures { Is result.words (λ (s : Bits). (length s ≤ 8) × (number s ≡ n)) }
{
    let mut words = [0u64; 8];
    if 0 < n && n < 512 {
        words[n / 64] = 1 << (n % 64);
    }
    Set { words }
}

// The set with the string of number n in it too; the same strings where n is no string's.
pub fn insert(set: Set, n: usize) -> Set
    requires { Proper set.words }
    ensures { Is result.words (Union (Has set.words) (λ (s : Bits). (length s ≤ 8) × (number s ≡ n))) }
{
    let mut x = set.words;
    if 0 < n && n < 512 {
        x[n / 64] |= 1 << (n % 64);
    }
    Set { words: x }
}

// Whether the string with number n is in the set; no other number is.
#[tactic(auto, using(crate::proofs::SetLaws::no_number))]
pub fn contains(set: Set, n: usize) -> bool
    ensures { Decides result ((s : Bits) × (number s ≡ n) × Has set.words s) }
{
    if n == 0 || 512 <= n {
        return false;
    }
    (set.words[n / 64] >> (n % 64)) % 2 == 1
}

pub fn has_empty_string(set: Set) -> bool
    ensures { Decides result (Has set.words []) }
{
    contains(set, 1)
}

pub fn union(a: Set, b: Set) -> Set
    ensures { Is result.words (Union (Has a.words) (Has b.words)) }
{
    let x = a.words;
    let y = b.words;
    let mut out = [0u64; 8];
    for i in 0..8 {
        out[i] = x[i] | y[i];
    }
    out[0] = words::even(out[0]);
    Set { words: out }
}

// Whether the words are the same, that of bit 0 too. Sets that functions of this crate return have the same words where they have the same strings.
pub fn equal(a: Set, b: Set) -> bool
    ensures { Decides result (SameWords a.words b.words) }
{
    let x = a.words;
    let y = b.words;
    for i in 0..8 {
        if x[i] != y[i] {
            return false;
        }
    }
    true
}

// The least string of two sets, by its number. "Trailing zeros of the and of two words give the least shared window."
pub fn least_common(a: Set, b: Set) -> Option<usize>
    ensures { LeastCommon a.words b.words result }
{
    let mut x = a.words;
    let y = b.words;
    x[0] = words::even(x[0]);
    for i in 0..8 {
        let w = x[i] & y[i];
        if 0 < w {
            return Some(64 * i + words::trailing_zeros(w));
        }
    }
    None
}

pub fn is_empty(set: Set) -> bool
    ensures { Decides result ((s : Bits) → Has set.words s → ⊥) }
{
    least_common(set, set).is_none()
}

// Every string of a followed by every string of b, cut at 8 bits. A result of 8 bits ends in a prefix of a string of b, a shorter one in a whole string.
fn join_words(a: Set, b: Set) -> Set
    ensures { Is result.words (Joined (Has a.words) (Has b.words)) }
{
    let mut x = a.words;
    let y = b.words;
    x[0] = words::even(x[0]);
    let p = prefixes::prefixes(&y);
    let mut out = [0u64; 8];
    for i in 0..8 {
        out[i] = pieces::joined_word(&x, &y, &p, i);
    }
    Set { words: out }
}

// Whether no word of strings shorter than 8 bits has a bit.
fn only_long(set: Set) -> bool
    ensures { result ≡ true → OnlyLong set.words }
{
    let x = set.words;
    if x[0] == 0 && x[1] == 0 && x[2] == 0 && x[3] == 0 {
        return true;
    }
    false
}

// Strings of 8 bits stay what they are, whatever follows them; where nothing does, there is no join.
fn join_long(a: Set, b: Set) -> Set
    requires { OnlyLong a.words }
    ensures { Is result.words (Joined (Has a.words) (Has b.words)) }
{
    match least_common(b, b) {
        None => empty(),
        Some(_) => union(a, a),
    }
}

// The same of any sets. Most fields have 8 bits or more, and many constructs have no strings yet: neither asks for the words' work.
pub fn join(a: Set, b: Set) -> Set
    ensures { Is result.words (Joined (Has a.words) (Has b.words)) }
{
    if only_long(a) {
        return join_long(a, b);
    }
    join_words(a, b)
}
