// The steps of a run over any table's words. The work of a step is over lent arrays; the rest of the run is a small struct by value.
#![tactic(auto)]

ghost use Rattle.std.specs.Prelude.{◌≡◌, ℕ, ◌+◌, ◌*◌, ◌-◌, ◌≤◌, ◌<◌, length, get_or, set};
ghost use Rattle.table_layout.specs.Held.{opening};
ghost use Rattle.basis.specs.Limits.{max_constructs, max_variables, table_words, max_frame_bytes, max_entries};
ghost use Rattle.run_actions.specs.Acts.{bits_of, Doable};
ghost use Rattle.run_steps.specs.Steps.{break as breakOf, fail as failOf, verdict_after, taken as taken_of, placed, bind as bindOf, MembersDone, AgainDone, TakeDone, Whole, whole, effect as effect_of, in_bound, first_step, step_of, steps_of, Fits};

use basis::{MAX_ENTRIES, MAX_VARIABLES, MAX_WEIGHT};
use run_actions::Act;
use table_layout::OPENING;

// Where the first entry is counted too, whose place its members take.
const MEMBERS_ROOM: usize = MAX_ENTRIES + 1;

// What a run holds beside its arrays.
#[derive(Clone, Copy)]
pub struct Head {
    pub position: usize,
    pub count: usize,
    pub captures: usize,
    pub steps: u64,
    pub verdict: u32,
}

fn broken(head: Head) -> Head
    ensures { result ≡ breakOf head }
{
    Head { verdict: 4, ..head }
}

fn failed(head: Head) -> Head
    requires { head.steps < 18446744073709551615 }
    ensures { result ≡ failOf head }
{
    Head {
        steps: head.steps + 1,
        verdict: 2,
        ..head
    }
}

fn verdict(frame: &[u8], count: usize, position: usize) -> u32
    requires { length frame.now ≤ max_frame_bytes }
    ensures { result ≡ verdict_after frame.now count position }
{
    if count == 0 {
        if position == 8 * frame.len() {
            return 1;
        }
        return 2;
    }
    0
}

fn taken(frame: &[u8], head: Head, count: usize, position: usize, captures: usize) -> Head
    requires { (length frame.now ≤ max_frame_bytes) × (head.steps < 18446744073709551615) }
    ensures { result ≡ taken_of frame.now head count position captures }
{
    let after = verdict(frame, count, position);
    Head {
        position,
        count,
        captures,
        steps: head.steps + 1,
        verdict: after,
    }
}

// Whether the bound of condition 3 leaves a step.
fn bounded(table: &[u32], frame: &[u8], steps: u64) -> bool
    requires { length frame.now ≤ max_frame_bytes }
    ensures { result ≡ in_bound table.now frame.now steps }
{
    let weight = table_layout::word(table, 5);
    if weight <= MAX_WEIGHT {
        return steps < (weight * (8 * frame.len() + 1)) as u64;
    }
    false
}

// A construct takes the first entry's place.
fn enter(
    constructs: &mut [u32; MAX_ENTRIES],
    passes: &mut [u32; MAX_ENTRIES],
    count: usize,
    construct: usize,
)
    requires { (0 < count) × (count ≤ max_entries) × (construct < 4294967296) }
    ensures { (constructs.new ≡ set constructs.old (count - 1) construct) × (passes.new ≡ set passes.old (count - 1) 0) }
{
    constructs[count - 1] = construct as u32;
    passes[count - 1] = 0;
}

// The first entry again with one pass more, below its body.
fn again(
    constructs: &mut [u32; MAX_ENTRIES],
    passes: &mut [u32; MAX_ENTRIES],
    count: usize,
    k: u32,
    body: usize,
)
    requires { (0 < count) × (count < max_entries) × (k < 4294967295) × (body < 4294967296) }
    ensures { (constructs.new ≡ set constructs.old count body) × (passes.new ≡ set (set passes.old (count - 1) (k + 1)) count 0) }
{
    passes[count - 1] = k + 1;
    constructs[count] = body as u32;
    passes[count] = 0;
}

fn record(reading: &mut [u32], captures: usize, construct: usize, position: usize)
    requires { (2 * captures + 2 ≤ length reading.old) × (construct < 4294967296) × (position < 4294967296) }
    ensures { reading.new ≡ set (set reading.old (2 * captures) construct) (2 * captures + 1) position }
{
    reading[2 * captures] = construct as u32;
    reading[2 * captures + 1] = position as u32;
}

fn bind(values: &mut [i64; MAX_VARIABLES], binder: usize, value: i64)
    requires { binder ≤ max_variables }
    ensures { values.new ≡ bindOf binder value values.old }
{
    if 0 < binder {
        values[binder - 1] = value;
    }
}

// The members from `start` up to `end` below each other, the first one last, ending below place `at`.
fn place(
    table: &[u32],
    constructs: &mut [u32; MAX_ENTRIES],
    passes: &mut [u32; MAX_ENTRIES],
    start: usize,
    end: usize,
    at: usize,
)
    requires { (end ≤ max_constructs) × (at ≤ max_entries) × (length constructs.old ≡ max_entries) × (length passes.old ≡ max_entries) }
    ensures { (constructs.new ≡ placed (λ (j : ℕ). j) table.now start end at constructs.old) × (passes.new ≡ placed (λ (j : ℕ). 0) table.now start end at passes.old) }
{
    let mut j = start;
    let mut k = at;
    while j < end {
        if k == 0 {
            return;
        }
        k -= 1;
        constructs[k] = j as u32;
        passes[k] = 0;
        let step = run_actions::size_at(table, j);
        if step == 0 {
            return;
        }
        j += step;
    }
}

// The members take the first entry's place, where there is room.
fn do_members(
    table: &[u32],
    frame: &[u8],
    constructs: &mut [u32; MAX_ENTRIES],
    passes: &mut [u32; MAX_ENTRIES],
    head: Head,
    start: usize,
    end: usize,
    n: usize,
) -> Head
    requires { (length frame.now ≤ max_frame_bytes) × (head.steps < 18446744073709551615) × (0 < head.count) × (head.count ≤ max_entries) × (end ≤ max_constructs) × (n ≤ max_constructs) × (length constructs.old ≡ max_entries) × (length passes.old ≡ max_entries) }
    ensures { MembersDone table.now frame.now constructs.old passes.old head start end n constructs.new passes.new result }
{
    let count = head.count;
    if count + n <= MEMBERS_ROOM {
        let top = count - 1 + n;
        place(table, constructs, passes, start, end, top);
        let position = head.position;
        let captures = head.captures;
        return taken(frame, head, top, position, captures);
    }
    broken(head)
}

// One pass more, where there is room.
fn do_again(
    frame: &[u8],
    constructs: &mut [u32; MAX_ENTRIES],
    passes: &mut [u32; MAX_ENTRIES],
    head: Head,
    k: u32,
    body: usize,
) -> Head
    requires { (length frame.now ≤ max_frame_bytes) × (head.steps < 18446744073709551615) × (0 < head.count) × (head.count ≤ max_entries) × (body < max_constructs) }
    ensures { AgainDone frame.now constructs.old passes.old head k body constructs.new passes.new result }
{
    let count = head.count;
    if MAX_ENTRIES <= count || 8 * frame.len() + 1 <= k as usize {
        return broken(head);
    }
    again(constructs, passes, count, k, body);
    let position = head.position;
    let captures = head.captures;
    taken(frame, head, count + 1, position, captures)
}

// A field is recorded and its value bound, where the reading has room.
fn do_take(
    frame: &[u8],
    values: &mut [i64; MAX_VARIABLES],
    reading: &mut [u32],
    head: Head,
    i: usize,
    width: usize,
    binder: usize,
    value: i64,
) -> Head
    requires { (length frame.now ≤ max_frame_bytes) × (head.steps < 18446744073709551615) × (0 < head.count) × (2 * head.captures ≤ length reading.old) × (i < 4294967296) × (head.position + width ≤ 8 * length frame.now) × (binder ≤ max_variables) }
    ensures { TakeDone frame.now values.old reading.old head i width binder value values.new reading.new result }
{
    let captures = head.captures;
    if 2 * captures + 2 <= reading.len() {
        let position = head.position;
        let count = head.count;
        record(reading, captures, i, position);
        bind(values, binder, value);
        return taken(frame, head, count - 1, position + width, captures + 1);
    }
    broken(head)
}

// What was decided for the first entry, the construct i after k passes, is done.
fn do_act(
    table: &[u32],
    frame: &[u8],
    constructs: &mut [u32; MAX_ENTRIES],
    passes: &mut [u32; MAX_ENTRIES],
    values: &mut [i64; MAX_VARIABLES],
    reading: &mut [u32],
    head: Head,
    i: usize,
    k: u32,
    act: Act,
) -> Head
    requires { (length frame.now ≤ max_frame_bytes) × (head.steps < 18446744073709551615) × (0 < head.count) × (head.count ≤ max_entries) × (2 * head.captures ≤ length reading.old) × (i ≤ opening) × (length constructs.old ≡ max_entries) × (length passes.old ≡ max_entries) × Doable table.now frame.now head.position act }
    ensures { whole constructs.new passes.new values.new reading.new result ≡ effect_of table.now frame.now i k constructs.old passes.old values.old reading.old head act }
{
    let count = head.count;
    let position = head.position;
    let captures = head.captures;
    match act {
        Act::Broken => broken(head),
        Act::Fail => failed(head),
        Act::Enter { construct } => {
            enter(constructs, passes, count, construct);
            taken(frame, head, count, position, captures)
        }
        Act::Members {
            start,
            end,
            count: n,
        } => { do_members(table, frame, constructs, passes, head, start, end, n) }
        Act::Again { body } => do_again(frame, constructs, passes, head, k, body),
        Act::Leave => taken(frame, head, count - 1, position, captures),
        Act::Take {
            width,
            binder,
            value,
        } => { do_take(frame, values, reading, head, i, width, binder, value) }
    }
}

// The number in the first entry.
fn first_of(entries: &[u32; MAX_ENTRIES], count: usize) -> u32
    requires { (0 < count) × (count ≤ max_entries) }
    ensures { result ≡ get_or entries.now (count - 1) 0 }
{
    entries[count - 1]
}

// A step within the bound takes the first entry.
fn take_first(
    table: &[u32],
    frame: &[u8],
    constructs: &mut [u32; MAX_ENTRIES],
    passes: &mut [u32; MAX_ENTRIES],
    values: &mut [i64; MAX_VARIABLES],
    reading: &mut [u32],
    head: Head,
) -> Head
    requires { (table_words ≤ length table.now) × (length frame.now ≤ max_frame_bytes) × (head.position ≤ 8 * length frame.now) × (0 < head.count) × (head.count ≤ max_entries) × (2 * head.captures ≤ length reading.old) × (head.steps < 18446744073709551615) × (length constructs.old ≡ max_entries) × (length passes.old ≡ max_entries) }
    ensures { whole constructs.new passes.new values.new reading.new result ≡ first_step table.now frame.now (get_or constructs.old (head.count - 1) 0) (get_or passes.old (head.count - 1) 0) constructs.old passes.old values.old reading.old head }
{
    let count = head.count;
    let i = first_of(constructs, count) as usize;
    let k = first_of(passes, count);
    if i <= OPENING {
        let position = head.position;
        let act = run_actions::decide(table, frame, values, position, i, k as u64);
        return do_act(
            table, frame, constructs, passes, values, reading, head, i, k, act,
        );
    }
    broken(head)
}

// One step of a run.
pub fn step(
    table: &[u32],
    frame: &[u8],
    constructs: &mut [u32; MAX_ENTRIES],
    passes: &mut [u32; MAX_ENTRIES],
    values: &mut [i64; MAX_VARIABLES],
    reading: &mut [u32],
    head: Head,
) -> Head
    requires { (table_words ≤ length table.now) × (length frame.now ≤ max_frame_bytes) × (head.position ≤ 8 * length frame.now) × (head.count ≤ max_entries) × (2 * head.captures ≤ length reading.old) × (length constructs.old ≡ max_entries) × (length passes.old ≡ max_entries) }
    ensures { whole constructs.new passes.new values.new reading.new result ≡ step_of table.now frame.now (whole constructs.old passes.old values.old reading.old head) }
{
    let verdict = head.verdict;
    if verdict != 0 {
        return head;
    }
    let steps = head.steps;
    let count = head.count;
    if bounded(table, frame, steps) && 0 < count {
        return take_first(table, frame, constructs, passes, values, reading, head);
    }
    broken(head)
}

// So many steps, or as many as there are until the run is decided.
pub fn advance(
    table: &[u32],
    frame: &[u8],
    constructs: &mut [u32; MAX_ENTRIES],
    passes: &mut [u32; MAX_ENTRIES],
    values: &mut [i64; MAX_VARIABLES],
    reading: &mut [u32],
    head: Head,
    grant: u64,
) -> Head
    requires { (table_words ≤ length table.now) × (length frame.now ≤ max_frame_bytes) × Fits frame.now (whole constructs.old passes.old values.old reading.old head) }
    ensures { whole constructs.new passes.new values.new reading.new result ≡ steps_of table.now frame.now grant (whole constructs.old passes.old values.old reading.old head) }
{
    let mut run = head;
    for _i in 0..grant {
        if run.verdict != 0 {
            return run;
        }
        run = step(table, frame, constructs, passes, values, reading, run);
    }
    run
}
