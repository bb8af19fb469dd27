// What a step does with the first entry of a run's list, decided by reading alone.
#![tactic(auto)]

ghost use Rattle.std.specs.Prelude.{◌≡◌, Ok, Err, true, cond, ◌&&◌, ℕ, ◌+◌, ◌*◌, ◌^◌, ◌≤◌, ◌<◌, leb, ltb, eqb, length, take, drop};
ghost use Rattle.basis.specs.Limits.{max_rules, max_constructs, max_literal_bytes, max_width, max_bound_width, table_words, max_frame_bytes};
ghost use Rattle.basis.specs.Bits.{value, frame_bits};
ghost use Rattle.table_layout.specs.Constructs.{listed as listed_of, inner_of, leaf_of, construct_of, construct_at};
ghost use Rattle.term_evaluation.specs.Meaning.{membership};
ghost use Rattle.term_evaluation.specs.Patterns.{clamped};
ghost use Rattle.table_layout.specs.Held.{opening, term_words, terms_of, size_of, literal_byte};
ghost use Rattle.table_layout.proofs.Bounds.{Fine};
ghost use Rattle.run_actions.specs.Stored.{stored as storedOf};
ghost use Rattle.run_actions.specs.Acts.{in_table, whole_in_table, known_values, enter as enterOf, open_rule, ahead_at, branch_act, case_test, case_act, members_act, choice_act, turn_act, counted as countedOf, literal_holds, literal_act, by_set, range_act, kept as keptOf, number_at, bits_act, uint_act, end_act, construct_act, act_of};

use basis::{MAX_CONSTRUCTS, MAX_LITERAL_BYTES, MAX_RULES};
use table_layout::{CONSTRUCTS_AT, LITERALS_AT, OPENING, Passes, RULES_AT, SETS_AT, TERMS_AT};
use term_evaluation::Allowed;
use term_integers::power;
use term_words::TermError;

// What a step is to do.
#[derive(Clone, Copy)]
pub enum Act {
    // Something in the table is missing or against its layout, or a calculation leaves 2^62.
    Broken,
    // No match.
    Fail,
    // The construct takes the entry's place.
    Enter {
        construct: usize,
    },
    // The parts from `start` up to `end`, `count` of them, take the entry's place.
    Members {
        start: usize,
        end: usize,
        count: usize,
    },
    // The body is done, and the entry again with one pass more.
    Again {
        body: usize,
    },
    // The entry is done.
    Leave,
    // A field of `width` bits holds; `value` goes to the variable `binder` - 1, where there is one.
    Take {
        width: usize,
        binder: usize,
        value: i64,
    },
}

// Whether the string with number n is in the set whose words begin at `base`.
fn stored(table: &[u32], base: usize, n: u64) -> bool
    requires { (base < table_words) × (n < 512) }
    ensures { result ≡ storedOf table.now base n }
{
    let at = (n / 32) as usize;
    let w = table_layout::word(table, base + at) as u64;
    w / power(n % 32) % 2 == 1
}

// How many constructs construct j is; a missing one is none.
pub fn size_at(table: &[u32], j: usize) -> usize
    ensures { (result ≡ size_of (construct_at table.now j)) × (result ≤ max_constructs) }
{
    table_layout::size_at(table, j)
}

// The first branch whose prediction set holds what comes next, number n.
fn branch(table: &[u32], n: u64, start: usize, end: usize) -> Act
    requires { (n < 512) × (end ≤ max_constructs) }
    ensures { result ≡ branch_act table.now n start end }
{
    let mut j = start;
    while j < end {
        if stored(table, SETS_AT + 32 * j, n) {
            return Act::Enter { construct: j };
        }
        let step = size_at(table, j);
        if step == 0 {
            return Act::Broken;
        }
        j += step;
    }
    Act::Fail
}

// The words of the terms.
fn terms(table: &[u32]) -> &[u32]
    requires { table_words ≤ length table.now }
    ensures { result.now ≡ term_words table.now }
{
    &table[TERMS_AT..LITERALS_AT]
}

// Whether the case j of a switch is to be taken; one without a condition is the default.
fn case_holds(table: &[u32], values: &[i64], j: usize) -> Result<bool, TermError>
    requires { (table_words ≤ length table.now) × (j < max_constructs) }
    ensures { result ≡ case_test table.now values.now j }
{
    let start = table_layout::word(table, CONSTRUCTS_AT + 8 * j + 6);
    let end = table_layout::word(table, CONSTRUCTS_AT + 8 * j + 7);
    if start < end {
        if table_layout::word(table, 4) < end {
            return Err(TermError::Malformed);
        }
        return term_evaluation::satisfied(terms(table), start, end, values);
    }
    Ok(true)
}

// The first case to be taken; with none, and no default, the run goes on.
fn case(table: &[u32], values: &[i64], start: usize, end: usize) -> Act
    requires { (table_words ≤ length table.now) × (end ≤ max_constructs) }
    ensures { result ≡ case_act table.now values.now start end }
{
    let mut j = start;
    while j < end {
        let Ok(holds) = case_holds(table, values, j) else {
            return Act::Broken;
        };
        if holds {
            return Act::Enter { construct: j };
        }
        let step = size_at(table, j);
        if step == 0 {
            return Act::Broken;
        }
        j += step;
    }
    Act::Leave
}

// The members of a concatenation, counted.
fn members(table: &[u32], start: usize, end: usize) -> Act
    requires { end ≤ max_constructs }
    ensures { result ≡ members_act table.now start end }
{
    let mut count = 0;
    let mut j = start;
    while j < end {
        let step = size_at(table, j);
        if step == 0 {
            return Act::Broken;
        }
        count += 1;
        j += step;
    }
    Act::Members { start, end, count }
}

// A construct takes the entry's place, if the table has it.
fn enter(table: &[u32], i: usize) -> Act
    ensures { result ≡ enterOf table.now i }
{
    if i < MAX_CONSTRUCTS && i < table_layout::word(table, 2) {
        return Act::Enter { construct: i };
    }
    Act::Broken
}

// A rule's use becomes its body, where there is such a rule.
fn open_rule(table: &[u32], rule: usize) -> Act
    requires { rule < max_rules }
    ensures { result ≡ open_rule table.now rule }
{
    if rule < table_layout::word(table, 1) {
        return enter(table, table_layout::word(table, RULES_AT + 4 * rule));
    }
    Act::Broken
}

// Lookahead is asked only where the counts leave a choice.
fn choice(table: &[u32], n: u64, i: usize) -> Act
    requires { (n < 512) × (i + 1 < max_constructs) }
    ensures { result ≡ choice_act table.now n i }
{
    if stored(table, SETS_AT + 32 * (i + 1), n) {
        return Act::Again { body: i + 1 };
    }
    if stored(table, SETS_AT + 32 * i + 16, n) {
        return Act::Leave;
    }
    Act::Fail
}

// How many passes the terms from `start` up to `end` allow, if the table has them.
fn counts_of(table: &[u32], values: &[i64], start: usize, end: usize) -> Result<Allowed, TermError>
    requires { table_words ≤ length table.now }
    ensures { result ≡ countedOf table.now values.now (Passes.Counted start end) }
{
    if table_layout::word(table, 4) < end {
        return Err(TermError::Malformed);
    }
    term_evaluation::counts::count(terms(table), start, end, values)
}

// What a repetition with k passes begun does.
fn turn(
    table: &[u32],
    frame: &[u8],
    p: usize,
    i: usize,
    k: u64,
    counts: Result<Allowed, TermError>,
) -> Act
    requires { (i + 1 < max_constructs) × (p ≤ 8 * length frame.now) × (length frame.now ≤ max_frame_bytes) }
    ensures { result ≡ turn_act table.now (ahead_at frame.now p) i k counts }
{
    let Ok(allowed) = counts else {
        return Act::Broken;
    };
    match allowed {
        Allowed::None => Act::Fail,
        Allowed::From { low } => {
            if k < low {
                return Act::Again { body: i + 1 };
            }
            choice(table, ahead(frame, p), i)
        }
        Allowed::Within { low, more } => {
            if k < low {
                return Act::Again { body: i + 1 };
            }
            if more <= k - low {
                return Act::Leave;
            }
            choice(table, ahead(frame, p), i)
        }
    }
}

// The number of what comes next, which is below 512.
fn ahead(frame: &[u8], p: usize) -> u64
    requires { (p ≤ 8 * length frame.now) × (length frame.now ≤ max_frame_bytes) }
    ensures { (result ≡ ahead_at frame.now p) × (result < 512) }
{
    run_frame::ahead(frame, p)
}

// Byte k of the literal of construct i.
fn literal_byte(table: &[u32], i: usize, k: usize) -> u64
    requires { (i < max_constructs) × (k < max_literal_bytes) }
    ensures { (result ≡ literal_byte table.now i k) × (result < 256) }
{
    let w = table_layout::word(table, LITERALS_AT + 8 * i + k / 4) as u64;
    let place = (k % 4) as u64;
    w / power(8 * place) % 256
}

// Whether the n bytes of a literal stand at bit p.
fn literal_holds(table: &[u32], frame: &[u8], p: usize, i: usize, n: usize) -> bool
    requires { (p + 8 * n ≤ 8 * length frame.now) × (length frame.now ≤ max_frame_bytes) × (i < max_constructs) × (n ≤ max_literal_bytes) }
    ensures { result ≡ literal_holds table.now frame.now p i 0 n }
{
    for k in 0..n {
        let want = literal_byte(table, i, k);
        if run_frame::octet(frame, p + 8 * k) != want {
            return false;
        }
    }
    true
}

fn literal(table: &[u32], frame: &[u8], p: usize, i: usize, n: usize) -> Act
    requires { (p ≤ 8 * length frame.now) × (length frame.now ≤ max_frame_bytes) × (i < max_constructs) × (n ≤ max_literal_bytes) }
    ensures { result ≡ literal_act table.now frame.now p i n }
{
    if p + 8 * n <= 8 * frame.len() && literal_holds(table, frame, p, i, n) {
        return Act::Take {
            width: 8 * n,
            binder: 0,
            value: 0,
        };
    }
    Act::Fail
}

fn range(frame: &[u8], p: usize, low: usize, high: usize) -> Act
    requires { (p ≤ 8 * length frame.now) × (length frame.now ≤ max_frame_bytes) }
    ensures { result ≡ range_act frame.now p low high }
{
    if p + 8 <= 8 * frame.len() {
        let v = run_frame::octet(frame, p) as usize;
        if low <= v && v <= high {
            return Act::Take {
                width: 8,
                binder: 0,
                value: 0,
            };
        }
    }
    Act::Fail
}

// A uint or a sint whose set and variable the table has.
fn uint(
    table: &[u32],
    frame: &[u8],
    values: &[i64],
    p: usize,
    signed: bool,
    width: usize,
    start: usize,
    end: usize,
    binder: usize,
) -> Act
    requires { (table_words ≤ length table.now) × (p ≤ 8 * length frame.now) × (length frame.now ≤ max_frame_bytes) × (width ≤ max_width) × (0 < binder → width ≤ max_bound_width) }
    ensures { result ≡ uint_act table.now frame.now values.now p signed width start end binder }
{
    if table_layout::word(table, 4) < end {
        return Act::Broken;
    }
    if table_layout::word(table, 3) < binder {
        return Act::Broken;
    }
    bits(table, frame, values, p, signed, width, start, end, binder)
}

// A binder has at most 62 bits, so what it binds is the number itself.
fn bits(
    table: &[u32],
    frame: &[u8],
    values: &[i64],
    p: usize,
    signed: bool,
    width: usize,
    start: usize,
    end: usize,
    binder: usize,
) -> Act
    requires { (table_words ≤ length table.now) × (p ≤ 8 * length frame.now) × (length frame.now ≤ max_frame_bytes) × (width ≤ max_width) × (0 < binder → width ≤ max_bound_width) }
    ensures { result ≡ bits_act table.now frame.now values.now p signed width start end binder }
{
    if p + width <= 8 * frame.len() {
        let number = number_at(frame, p, signed, width);
        let tested = set_holds(table, values, start, end, number);
        return by_set(tested, width, binder, kept(binder, number));
    }
    Act::Fail
}

// The number that so many bits from bit p on are; of one past 2^62 what stands for it in every set.
fn number_at(frame: &[u8], p: usize, signed: bool, width: usize) -> i64
    requires { (p + width ≤ 8 * length frame.now) × (length frame.now ≤ max_frame_bytes) × (width ≤ max_width) }
    ensures { result ≡ clamped (number_at frame.now p signed width) }
{
    let pattern = run_frame::bits(frame, p, width);
    term_evaluation::patterns::value_of(pattern, width as u32, signed)
}

// Whether a number is in the set of these terms.
fn set_holds(
    table: &[u32],
    values: &[i64],
    start: usize,
    end: usize,
    number: i64,
) -> Result<bool, TermError>
    requires { table_words ≤ length table.now }
    ensures { result ≡ membership values.now number start (terms_of table.now start end) }
{
    term_evaluation::contains(terms(table), start, end, values, number)
}

// What is bound: 0 where nothing is.
fn kept(binder: usize, number: i64) -> i64
    ensures { result ≡ keptOf binder number }
{
    if 0 < binder { number } else { 0 }
}

fn by_set(tested: Result<bool, TermError>, width: usize, binder: usize, value: i64) -> Act
    ensures { result ≡ by_set tested width binder value }
{
    match tested {
        Ok(true) => Act::Take {
            width,
            binder,
            value,
        },
        Ok(false) => Act::Fail,
        Err(_) => Act::Broken,
    }
}

fn end(frame: &[u8], p: usize) -> Act
    requires { length frame.now ≤ max_frame_bytes }
    ensures { result ≡ end_act frame.now p }
{
    if p == 8 * frame.len() {
        return Act::Leave;
    }
    Act::Fail
}

fn alternative(table: &[u32], frame: &[u8], p: usize, i: usize, size: usize) -> Act
    requires { (i + size ≤ max_constructs) × (p ≤ 8 * length frame.now) × (length frame.now ≤ max_frame_bytes) }
    ensures { result ≡ branch_act table.now (ahead_at frame.now p) (i + 1) (i + size) }
{
    branch(table, ahead(frame, p), i + 1, i + size)
}

// How many passes a repetition's words allow; where they say none the table is against its layout.
fn passes_told(
    table: &[u32],
    values: &[i64],
    how: usize,
    start: usize,
    end: usize,
) -> Result<Allowed, TermError>
    requires { table_words ≤ length table.now }
    ensures { result ≡ cond (eqb how 1) (Ok (Allowed.Within 0 1)) (cond (eqb how 2) (Ok (Allowed.From 0)) (cond (eqb how 3) (Ok (Allowed.From 1)) (cond (eqb how 4 && listed_of start end) (countedOf table.now values.now (Passes.Counted start end)) (Err TermError.Malformed)))) }
{
    match how {
        1 => Ok(Allowed::Within { low: 0, more: 1 }),
        2 => Ok(Allowed::From { low: 0 }),
        3 => Ok(Allowed::From { low: 1 }),
        4 if table_layout::listed(start, end) => counts_of(table, values, start, end),
        _ => Err(TermError::Malformed),
    }
}

// What a construct with parts does, by its words.
fn of_inner(
    table: &[u32],
    frame: &[u8],
    values: &[i64],
    p: usize,
    i: usize,
    k: u64,
    kind: usize,
    size: usize,
    a: usize,
    b: usize,
    c: usize,
) -> Act
    requires { (table_words ≤ length table.now) × (2 ≤ size) × (i + size ≤ max_constructs) × (p ≤ 8 * length frame.now) × (length frame.now ≤ max_frame_bytes) }
    ensures { result ≡ construct_act table.now frame.now values.now p i k (inner_of kind size a b c) }
{
    match kind {
        2 => members(table, i + 1, i + size),
        3 => turn(table, frame, p, i, k, passes_told(table, values, a, b, c)),
        1 => alternative(table, frame, p, i, size),
        _ => case(table, values, i + 1, i + size),
    }
}

// What a construct without parts does, by its words.
fn of_leaf(
    table: &[u32],
    frame: &[u8],
    values: &[i64],
    p: usize,
    i: usize,
    k: u64,
    kind: usize,
    a: usize,
    b: usize,
    c: usize,
    d: usize,
) -> Act
    requires { (table_words ≤ length table.now) × (i < max_constructs) × (p ≤ 8 * length frame.now) × (length frame.now ≤ max_frame_bytes) }
    ensures { result ≡ construct_act table.now frame.now values.now p i k (leaf_of kind a b c d) }
{
    if is_number(kind) {
        if table_layout::uint_fits(a, b, c, d) {
            return uint(table, frame, values, p, kind == 12, a, b, c, d);
        }
        return Act::Broken;
    }
    if kind == 5 {
        if a < MAX_RULES {
            return open_rule(table, a);
        }
        return Act::Broken;
    }
    if kind == 6 {
        return of_literal(table, frame, p, i, a);
    }
    if kind == 7 {
        return of_range(frame, p, a, b);
    }
    if kind == 9 {
        return end(frame, p);
    }
    Act::Broken
}

// A uint or a sint.
fn is_number(kind: usize) -> bool
    ensures { result ≡ cond (eqb kind 8) true (eqb kind 12) }
{
    kind == 8 || kind == 12
}

// A literal whose length is within its limits.
fn of_literal(table: &[u32], frame: &[u8], p: usize, i: usize, n: usize) -> Act
    requires { (p ≤ 8 * length frame.now) × (length frame.now ≤ max_frame_bytes) × (i < max_constructs) }
    ensures { result ≡ cond (leb 1 n && leb n max_literal_bytes) (literal_act table.now frame.now p i n) Act.Broken }
{
    if 1 <= n && n <= MAX_LITERAL_BYTES {
        literal(table, frame, p, i, n)
    } else {
        Act::Broken
    }
}

// A range whose characters are within their limits.
fn of_range(frame: &[u8], p: usize, low: usize, high: usize) -> Act
    requires { (p ≤ 8 * length frame.now) × (length frame.now ≤ max_frame_bytes) }
    ensures { result ≡ cond (ltb low 128 && ltb high 128) (range_act frame.now p low high) Act.Broken }
{
    if low < 128 && high < 128 {
        range(frame, p, low, high)
    } else {
        Act::Broken
    }
}

// What a construct does, by its words.
fn of_words(
    table: &[u32],
    frame: &[u8],
    values: &[i64],
    p: usize,
    i: usize,
    k: u64,
    kind: usize,
    size: usize,
    a: usize,
    b: usize,
    c: usize,
    d: usize,
) -> Act
    requires { (table_words ≤ length table.now) × (i < max_constructs) × (p ≤ 8 * length frame.now) × (length frame.now ≤ max_frame_bytes) }
    ensures { result ≡ construct_act table.now frame.now values.now p i k (construct_of i kind size a b c d) }
{
    if 4 < kind {
        if size == 1 {
            return of_leaf(table, frame, values, p, i, k, kind, a, b, c, d);
        }
        return Act::Broken;
    }
    if kind < 1 {
        return Act::Broken;
    }
    if table_layout::branches(i, size) {
        return of_inner(table, frame, values, p, i, k, kind, size, a, b, c);
    }
    Act::Broken
}

// The values of the table's variables.
fn known(values: &[i64], count: usize) -> &[i64]
    ensures { result.now ≡ take count values.now }
{
    if count < values.len() {
        return &values[0..count];
    }
    values
}

// What the entry of a construct does, if the table has it whole. A size that the other words do not bear out is that of a missing
// construct, which is broken too: so the size is tested before all else.
fn of_entry(table: &[u32], frame: &[u8], values: &[i64], p: usize, i: usize, k: u64) -> Act
    requires { (table_words ≤ length table.now) × (i < max_constructs) × (p ≤ 8 * length frame.now) × (length frame.now ≤ max_frame_bytes) }
    ensures { result ≡ cond (whole_in_table table.now i) (construct_act table.now frame.now (known_values table.now values.now) p i k (construct_at table.now i)) Act.Broken }
{
    let at = CONSTRUCTS_AT + 8 * i;
    let size = table_layout::word_within(table, at + 1);
    let end = i + size;
    if table_layout::word_within(table, 2) < end {
        return Act::Broken;
    }
    let kind = table_layout::word_within(table, at);
    let a = table_layout::word_within(table, at + 2);
    let b = table_layout::word_within(table, at + 3);
    let c = table_layout::word_within(table, at + 4);
    let d = table_layout::word_within(table, at + 5);
    let count = table_layout::word_within(table, 3);
    of_words(
        table,
        frame,
        known(values, count),
        p,
        i,
        k,
        kind,
        size,
        a,
        b,
        c,
        d,
    )
}

// What a step does with the entry (i, k) of a run at bit p: nothing is written.
pub fn decide(table: &[u32], frame: &[u8], values: &[i64], p: usize, i: usize, k: u64) -> Act
    requires { (table_words ≤ length table.now) × (i ≤ opening) × (p ≤ 8 * length frame.now) × (length frame.now ≤ max_frame_bytes) }
    ensures { result ≡ act_of table.now frame.now values.now p i k }
{
    if i == OPENING {
        return open_rule(table, 0);
    }
    of_entry(table, frame, values, p, i, k)
}
