// The tests that wait for 64 values, as words: bit j of each is a test of value j. So two tests become one for all values at once. The first `count` words
// wait; 63 says that there was no room for them.
ghost use Rattle.std.specs.Prelude.{◌≡◌, ℕ, ◌+◌, ◌*◌, ◌<◌, Bool, eqb, length};
ghost use Rattle.basis.specs.Bits.{digit};
ghost use Rattle.lookahead.specs.Sets.{bit};
ghost use Rattle.term_words.specs.Tests.{joins};
ghost use Rattle.term_membership.specs.Truths.{noted, joined, passes as passesOf, Tested, Anew};
ghost use Rattle.term_membership.specs.Batches.{Applied};

use crate::Effect;
use lookahead::words;
use term_words::Joint;

const NO_ROOM: usize = 63;

// Whether a value passes the test of an item.
fn passes(effect: Effect, value: u64) -> bool
    ensures { result ≡ passesOf effect value }
{
    match effect {
        Effect::Within(low, last) => low <= value && value <= last,
        Effect::From(low) => low <= value,
        _ => false,
    }
}

// A word with one bit more, the lowest.
fn doubled(word: u64, one: bool) -> u64
    requires { word < 9223372036854775808 }
    ensures { result ≡ word * 2 + digit one }
{
    if one { word * 2 + 1 } else { word * 2 }
}

// The test of an item for each value.
fn tested(effect: Effect, values: &[u64; 64]) -> u64
    ensures { Tested effect values.now 0 64 result }
{
    let mut out = 0u64;
    for j in (0..64).rev() {
        out = doubled(out, passes(effect, values[j]));
    }
    out
}

// Two tests become one.
fn both(joint: Joint, x: u64, y: u64) -> u64
    ensures { (j : ℕ) → bit result j ≡ digit (joins joint (eqb (bit x j) 1) (eqb (bit y j) 1)) }
{
    match joint {
        Joint::Or => x | y,
        Joint::And => x & y,
        Joint::Except => x ^ (x & y),
    }
}

// One test more waits.
fn note(masks: &mut [u64; 64], count: usize, test: u64) -> usize
    requires { length masks.old ≡ 64 }
    ensures { (b : ℕ → Bool) → ((j : ℕ) → j < 64 → bit test j ≡ digit (b j)) → Anew (λ j t. noted t (b j)) masks.old count masks.new result }
{
    if count < 62 {
        masks[count] = test;
        return count + 1;
    }
    NO_ROOM
}

// The last two tests become one.
fn join(masks: &mut [u64; 64], count: usize, joint: Joint) -> usize
    requires { length masks.old ≡ 64 }
    ensures { Anew (λ j t. joined joint t) masks.old count masks.new result }
{
    if count < 2 || 62 < count {
        return NO_ROOM;
    }
    masks[count - 2] = both(
        joint,
        words::same(masks[count - 2]),
        words::same(masks[count - 1]),
    );
    count - 1
}

// The same effect on the tests of each of 64 values.
pub fn apply_all(effect: Effect, values: &[u64; 64], masks: &mut [u64; 64], count: usize) -> usize
    requires { length masks.old ≡ 64 }
    ensures { Applied effect values.now masks.old count masks.new result }
{
    match effect {
        Effect::None => count,
        Effect::Within(_, _) => note(masks, count, tested(effect, values)),
        Effect::From(_) => note(masks, count, tested(effect, values)),
        Effect::Or => join(masks, count, Joint::Or),
        Effect::Except => join(masks, count, Joint::Except),
    }
}
