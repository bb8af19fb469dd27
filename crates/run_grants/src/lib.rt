// A run by value, and steps granted to it, over any words: any bytes may arrive as a run, a table, a frame or a reading.
#![tactic(auto)]

ghost use Rattle.std.specs.Prelude.{◌≡◌, ℕ, ◌+◌, ◌*◌, ◌-◌, ◌≤◌, ◌<◌, leb, length, get_or};
ghost use Rattle.basis.specs.Limits.{max_frame_bytes, max_frame_bits, max_entries};
ghost use Rattle.table_layout.specs.Places.{table_of};
ghost use Rattle.run_actions.specs.Acts.{bits_of};
ghost use Rattle.run_grants.specs.Runs.{entry_fits, entries_fit, fitting, run_of, after, grant_of, opened_run, closed_run};

use basis::{MAX_CONSTRUCTS, MAX_ENTRIES, MAX_FRAME_BYTES, MAX_VARIABLES, TABLE_WORDS};
use run_steps::Head;
use table_layout::OPENING;

// The first of `count` pending entries stands last; what stands beyond them may be anything.
#[derive(Clone, Copy)]
pub struct Run {
    pub position: u64,
    pub count: u64,
    pub captures: u64,
    pub steps: u64,
    pub verdict: u32,
    pub constructs: [u32; MAX_ENTRIES],
    pub passes: [u32; MAX_ENTRIES],
    pub values: [i64; MAX_VARIABLES],
}

// What a grant is answered.
#[derive(Clone, Copy)]
pub enum Answer {
    // Refused: the frame is over 1,024 bytes.
    LongFrame,
    // Refused: the saved run doesn't fit.
    Unfit,
    // So many steps were taken.
    Taken(u64),
}

// The run is handed back with the answer.
#[derive(Clone, Copy)]
pub struct Granted {
    pub run: Run,
    pub answer: Answer,
}

// A run that has its one entry, the opening use of the start rule, before it.
pub fn opened() -> Run
    ensures { result ≡ opened_run }
{
    let mut constructs = [0u32; MAX_ENTRIES];
    constructs[0] = OPENING as u32;
    let passes = [0u32; MAX_ENTRIES];
    let values = [0i64; MAX_VARIABLES];
    Run {
        position: 0,
        count: 1,
        captures: 0,
        steps: 0,
        verdict: 0,
        constructs,
        passes,
        values,
    }
}

// What a refused opening gives.
pub fn closed() -> Run
    ensures { result ≡ closed_run }
{
    let constructs = [0u32; MAX_ENTRIES];
    let passes = [0u32; MAX_ENTRIES];
    let values = [0i64; MAX_VARIABLES];
    Run {
        position: 0,
        count: 0,
        captures: 0,
        steps: 0,
        verdict: 3,
        constructs,
        passes,
        values,
    }
}

// Whether an entry is in the table and counts no more passes than there may be.
fn entry_fits(table: &[u32], bits: usize, construct: u32, passes: u32) -> bool
    requires { bits ≤ max_frame_bits }
    ensures { result ≡ entry_fits table.now bits construct passes }
{
    let i = construct as usize;
    passes as usize <= bits + 1
        && (i == OPENING || (i < MAX_CONSTRUCTS && i < table_layout::word(table, 2)))
}

// Whether all pending entries are so.
fn entries_fit(
    table: &[u32],
    bits: usize,
    constructs: &[u32; MAX_ENTRIES],
    passes: &[u32; MAX_ENTRIES],
    count: usize,
) -> bool
    requires { (bits ≤ max_frame_bits) × (count ≤ max_entries) }
    ensures { result ≡ entries_fit table.now bits constructs.now passes.now count }
{
    for left in (0..count).rev() {
        if !entry_fits(table, bits, constructs[left], passes[left]) {
            return false;
        }
    }
    true
}

// Whether there are two words for each capture recorded and each bit unread.
fn room_fits(room: usize, captures: usize, unread: usize) -> bool
    ensures { result ≡ leb (2 * (captures + unread)) room }
{
    let pairs = room / 2;
    if unread <= pairs {
        return captures <= pairs - unread;
    }
    false
}

// Whether the run fits the table, the frame and the reading.
fn fits(
    table: &[u32],
    frame: &[u8],
    room: usize,
    constructs: &[u32; MAX_ENTRIES],
    passes: &[u32; MAX_ENTRIES],
    head: Head,
) -> bool
    requires { length frame.now ≤ max_frame_bytes }
    ensures { result ≡ fitting table.now frame.now room constructs.now passes.now head }
{
    let position = head.position;
    let count = head.count;
    let captures = head.captures;
    let verdict = head.verdict;
    let bits = 8 * frame.len();
    if table.len() < TABLE_WORDS {
        return false;
    }
    if bits < position {
        return false;
    }
    if 4 < verdict {
        return false;
    }
    if MAX_ENTRIES < count {
        return false;
    }
    if entries_fit(table, bits, constructs, passes, count) {
        return room_fits(room, captures, bits - position);
    }
    false
}

// The run is put together after steps.
fn put_together(
    head: Head,
    constructs: [u32; MAX_ENTRIES],
    passes: [u32; MAX_ENTRIES],
    values: [i64; MAX_VARIABLES],
    taken: u64,
) -> Granted
    ensures { (result.run ≡ run_of head constructs passes values) × (result.answer ≡ Answer.Taken taken) }
{
    Granted {
        run: Run {
            position: head.position as u64,
            count: head.count as u64,
            captures: head.captures as u64,
            steps: head.steps,
            verdict: head.verdict,
            constructs,
            passes,
            values,
        },
        answer: Answer::Taken(taken),
    }
}

// A grant over exactly these words.
fn advance_words(table: &[u32], frame: &[u8], reading: &mut [u32], run: Run, steps: u64) -> Granted
    ensures { after result.run reading.new result.answer ≡ grant_of table.now frame.now reading.old run steps }
{
    if MAX_FRAME_BYTES < frame.len() {
        return Granted {
            run,
            answer: Answer::LongFrame,
        };
    }
    let mut constructs = run.constructs;
    let mut passes = run.passes;
    let mut values = run.values;
    let before = run.steps;
    let head = Head {
        position: run.position as usize,
        count: run.count as usize,
        captures: run.captures as usize,
        steps: before,
        verdict: run.verdict,
    };
    let room = reading.len();
    if fits(table, frame, room, &constructs, &passes, head) {
        let head = run_steps::advance(
            table,
            frame,
            &mut constructs,
            &mut passes,
            &mut values,
            reading,
            head,
            steps,
        );
        let after = head.steps;
        let taken = after - before;
        return put_together(head, constructs, passes, values, taken);
    }
    Granted {
        run,
        answer: Answer::Unfit,
    }
}

// A grant: steps until it is used up or the run is decided, closed or broken. Words past 16,384 are not read.
pub fn advance(table: &[u32], frame: &[u8], reading: &mut [u32], run: Run, steps: u64) -> Granted
    ensures { after result.run reading.new result.answer ≡ grant_of (table_of table.now) frame.now reading.old run steps }
{
    if table.len() < TABLE_WORDS {
        return advance_words(table, frame, reading, run, steps);
    }
    advance_words(&table[0..TABLE_WORDS], frame, reading, run, steps)
}

// One step.
pub fn step(table: &[u32], frame: &[u8], reading: &mut [u32], run: Run) -> Granted
    ensures { after result.run reading.new result.answer ≡ grant_of (table_of table.now) frame.now reading.old run 1 }
{
    advance(table, frame, reading, run, 1)
}

// A grant to the one run that the kiosk keeps, which is changed in place.
pub fn grant(table: &[u32], frame: &[u8], reading: &mut [u32], run: &mut Run, steps: u64) -> Answer
    ensures { after run.new reading.new result ≡ grant_of (table_of table.now) frame.now reading.old run.old steps }
{
    let done = advance(table, frame, reading, *run, steps);
    *run = done.run;
    done.answer
}
