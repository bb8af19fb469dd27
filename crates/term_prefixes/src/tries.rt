// The values at which a set changes, gathered and tried 64 at a time.
ghost use Rattle.std.specs.Prelude.{◌≡◌, ℕ, suc, ◌^◌, ◌≤◌, ◌<◌};
ghost use Rattle.term_words.specs.Words.{terms};
ghost use Rattle.term_membership.specs.Members.{holds_from};
ghost use Rattle.term_prefixes.specs.Marks.{Ready, Offered, ChangesAt, Changes};

use crate::Tried;
use crate::marks::settle;
use term_membership::Effect;
use term_membership::effects::turn;
use term_words::Numbers;
use term_words::decode::term_at;

// One value more waits. Where that makes 64, they are tried.
fn offer(
    words: &[u32],
    start: usize,
    end: usize,
    variables: &[i64],
    width: u32,
    offset: u64,
    old: Tried,
    value: u64,
) -> Tried
    requires { (width ≤ 64) × (offset ≤ 2 ^ 63) × Ready old }
    ensures { Offered (holds_from offset variables.now start (terms words.now start end)) width (λ (v : ℕ). value ≡ v) old result }
{
    let mut values = old.values;
    let mut marks = old.marks;
    let waiting = old.waiting;
    values[waiting] = value;
    if waiting < 63 {
        return Tried {
            values,
            waiting: waiting + 1,
            marks,
        };
    }
    settle(
        words, start, end, variables, width, offset, &values, &mut marks,
    );
    Tried {
        values,
        waiting: 0,
        marks,
    }
}

// The next number, where there is one of 64 bits.
fn after(last: u64) -> u64
    ensures { suc last < 2 ^ 64 → result ≡ suc last }
{
    if last < 18446744073709551615 {
        return last + 1;
    }
    last
}

// The values at which an effect changes.
fn offer_changes(
    words: &[u32],
    start: usize,
    end: usize,
    variables: &[i64],
    width: u32,
    offset: u64,
    old: Tried,
    effect: Effect,
) -> Tried
    requires { (width ≤ 64) × (offset ≤ 2 ^ 63) × Ready old }
    ensures { Offered (holds_from offset variables.now start (terms words.now start end)) width (ChangesAt effect) old result }
{
    match effect {
        Effect::None => old,
        Effect::Within(low, last) => {
            let next = offer(words, start, end, variables, width, offset, old, low);
            offer(
                words,
                start,
                end,
                variables,
                width,
                offset,
                next,
                after(last),
            )
        }
        Effect::From(low) => offer(words, start, end, variables, width, offset, old, low),
        Effect::Or => old,
        Effect::Except => old,
    }
}

// All values at which a set changes.
pub fn try_changes(
    words: &[u32],
    start: usize,
    end: usize,
    variables: &[i64],
    width: u32,
    offset: u64,
    old: Tried,
) -> Tried
    requires { (width ≤ 64) × (offset ≤ 2 ^ 63) × Ready old }
    ensures { Offered (holds_from offset variables.now start (terms words.now start end)) width (λ (v : ℕ). Changes offset variables.now v (terms words.now start end) Numbers.Zero) old result }
{
    let mut tried = old;
    let mut numbers = Numbers::Zero;
    for at in start..end {
        let Some((next, effect)) = turn(variables, term_at(words, at), numbers, offset) else {
            return tried;
        };
        tried = offer_changes(words, start, end, variables, width, offset, tried, effect);
        numbers = next;
    }
    tried
}
