// The calls of a C program: numbers and slices, each a pointer with a length. Nothing is trusted: any bytes and words, of any lengths, are
// answered or refused by document 01's numbers. include/songrafter.h says the same in C.
#![tactic(auto)]

ghost use Rattle.std.specs.Prelude.{true, eqb, ◌≡◌, [], ◌∷◌, length, get_or, set, pos};
ghost use Rattle.std.proofs.lemmas.List.Edits.{sets};
ghost use Rattle.text_admission.specs.Answers.{number_of};
ghost use Rattle.run_matcher.specs.Opening.{number_of as opening_number};
ghost use Rattle.table_layout.specs.Places.{table_of};
ghost use Rattle.run_grants.specs.Runs.{after, grant_of, number_of as grant-number, taken_of};
ghost use Rattle.run_saved.specs.Saved.{restored, stored, saved_bytes};
ghost use Rattle.run_matcher.specs.Opening.{run_given, Answered};
ghost use Rattle.run_fields.specs.Fields.{number_of as field-number, told as told-field};
ghost use Rattle.songrafter.specs.Calls.{Admits, number_with_room, Opens, no_run_number, Grants, TellsField, version};
ghost use Rattle.text_admission.specs.Answers.{told_clash, told};

use basis::{MAX_FRAME_BYTES, MAX_VARIABLES};
use run_grants::{Granted, Run};
use run_matcher::Answer;
use run_saved::SAVED_BYTES;
use table_conflicts::Clash;
use text_admission::Admission;

// A number of an answer, where it fits.
fn put(answer: &mut [u64], k: usize, n: usize)
    ensures { answer.new ≡ set answer.old k n }
{
    if k < answer.len() {
        answer[k] = n as u64;
    }
}

fn put_four(answer: &mut [u64], a: usize, b: usize, c: usize, d: usize)
    ensures { answer.new ≡ sets answer.old 0 (a ∷ b ∷ c ∷ d ∷ []) }
{
    put(answer, 0, a);
    put(answer, 1, b);
    put(answer, 2, c);
    put(answer, 3, d);
}

fn put_five(answer: &mut [u64], a: usize, b: usize, c: usize, d: usize, e: usize)
    ensures { answer.new ≡ sets answer.old 0 (a ∷ b ∷ c ∷ d ∷ e ∷ []) }
{
    put_four(answer, a, b, c, d);
    put(answer, 4, e);
}

fn tell_clash(answer: &mut [u64], place: usize, construct: usize, clash: Clash)
    ensures { answer.new ≡ sets answer.old 0 (told_clash place construct clash) }
{
    match clash {
        Clash::None => put_five(answer, place, 0, construct, 0, 0),
        Clash::Branches {
            window,
            first,
            second,
        } => put_five(answer, place, window, construct, first, second),
        Clash::Passes { window } => put_five(answer, place, window, construct, 0, 0),
    }
}

// Tells an answer, and gives its number.
fn tell(answer: &mut [u64], admission: Admission) -> usize
    ensures { (result ≡ number_of admission) × (answer.new ≡ sets answer.old 0 (told admission)) }
{
    match admission {
        Admission::Admitted { weight } => {
            put_five(answer, weight, 0, 0, 0, 0);
            0
        }
        Admission::Refused { number, place } => {
            put_five(answer, place, 0, 0, 0, 0);
            number
        }
        Admission::Conflict {
            place,
            construct,
            clash,
        } => {
            tell_clash(answer, place, construct, clash);
            10
        }
    }
}

pub fn songrafter_admit(text: &[u8], table: &mut [u32], answer: &mut [u64]) -> usize
    ensures { Admits text.now table.old table.new answer.old answer.new result }
{
    let admission = admission_call::admit(text, table);
    tell(answer, admission)
}

fn opening_number(answer: Answer) -> usize
    ensures { result ≡ opening_number answer }
{
    match answer {
        Answer::Unsound => 23,
        Answer::LongFrame => 21,
        Answer::SmallReading => 22,
        Answer::Opened => 0,
    }
}

fn with_room(number: usize, room: usize) -> usize
    ensures { result ≡ number_with_room number room }
{
    if number == 0 {
        if room == SAVED_BYTES {
            return 0;
        }
        return 24;
    }
    number
}

// The answer alone: its frame has the room of the sets, and is gone when a run is made.
#[inline(never)]
fn answer_of(table: &[u32], frame: &[u8], reading: &[u32]) -> Answer
    ensures { Answered table.now frame.now reading.now result }
{
    let opening = run_matcher::open(table, frame, reading);
    opening.answer
}

fn run_of(answer: Answer) -> Run
    ensures { result ≡ run_given answer }
{
    match answer {
        Answer::Unsound => run_grants::closed(),
        Answer::LongFrame => run_grants::closed(),
        Answer::SmallReading => run_grants::closed(),
        Answer::Opened => run_grants::opened(),
    }
}

#[inline(never)]
fn put_run(answer: Answer, run: &mut [u8]) -> bool
    ensures { (run.new ≡ stored (run_given answer) run.old) × (result ≡ eqb (length run.old) saved_bytes) × (result ≡ true → restored run.new ≡ run_given answer) }
{
    run_saved::encode(run_of(answer), run)
}

pub fn songrafter_open(table: &[u32], frame: &[u8], reading: &[u32], run: &mut [u8]) -> usize
    ensures { Opens table.now frame.now reading.now run.old run.new result }
{
    let answer = answer_of(table, frame, reading);
    let room = run.len();
    put_run(answer, run);
    with_room(opening_number(answer), room)
}

fn grant_number(answer: run_grants::Answer) -> usize
    ensures { result ≡ grant-number answer }
{
    match answer {
        run_grants::Answer::LongFrame => 21,
        run_grants::Answer::Unfit => 24,
        run_grants::Answer::Taken(_) => 0,
    }
}

fn steps_taken(answer: run_grants::Answer) -> u64
    ensures { result ≡ taken_of answer }
{
    match answer {
        run_grants::Answer::LongFrame => 0,
        run_grants::Answer::Unfit => 0,
        run_grants::Answer::Taken(n) => n,
    }
}

fn put_count(taken: &mut [u64], n: u64)
    ensures { taken.new ≡ set taken.old 0 n }
{
    if 0 < taken.len() {
        taken[0] = n;
    }
}

// A slice that is no saved run.
fn no_run(frame: &[u8], taken: &mut [u64]) -> usize
    ensures { (result ≡ no_run_number frame.now) × (taken.new ≡ set taken.old 0 0) }
{
    put_count(taken, 0);
    if MAX_FRAME_BYTES < frame.len() {
        return 21;
    }
    24
}

// "The kiosk keeps one run and has it changed in place": here in a local, which `run_grants::grant` changes.
fn grant_in_place(
    table: &[u32],
    frame: &[u8],
    reading: &mut [u32],
    mut run: Run,
    steps: u64,
) -> Granted
    ensures { after result.run reading.new result.answer ≡ grant_of (table_of table.now) frame.now reading.old run steps }
{
    let answer = run_grants::grant(table, frame, reading, &mut run, steps);
    Granted { run, answer }
}

pub fn songrafter_grant(
    table: &[u32],
    frame: &[u8],
    reading: &mut [u32],
    run: &mut [u8],
    steps: u64,
    taken: &mut [u64],
) -> usize
    ensures { Grants table.now frame.now reading.old reading.new run.old run.new taken.old taken.new steps result }
{
    if run.len() != SAVED_BYTES {
        return no_run(frame, taken);
    }
    let done = grant_in_place(table, frame, reading, run_saved::decode(run), steps);
    let after = done.run;
    let answer = done.answer;
    run_saved::encode(after, run);
    let count = steps_taken(answer);
    put_count(taken, count);
    grant_number(answer)
}

// Tells what is found of a field, and gives its number.
fn tell_field(field: &mut [u64], found: run_fields::Answer) -> usize
    ensures { (result ≡ field-number found) × (field.new ≡ sets field.old 0 (told-field found)) }
{
    match found {
        run_fields::Answer::LongFrame => 21,
        run_fields::Answer::NoWords => 22,
        run_fields::Answer::NoField => 23,
        run_fields::Answer::Outside => 24,
        run_fields::Answer::Found {
            construct,
            first,
            width,
            value,
        } => {
            put_four(field, construct, first, width, value);
            0
        }
    }
}

pub fn songrafter_field(
    table: &[u32],
    frame: &[u8],
    reading: &[u32],
    k: usize,
    field: &mut [u64],
) -> usize
    ensures { TellsField table.now frame.now reading.now k field.old field.new result }
{
    let found = run_fields::field(table, frame, reading, k);
    tell_field(field, found)
}

// The version of include/songrafter.h that this is: 0.3.0.
pub fn songrafter_version() -> u32
    ensures { result ≡ version }
{
    3000
}

// Of a saved run, or of a closed one where the slice is none: verdict, steps taken, fields recorded, position, value of a variable.
pub fn songrafter_verdict(run: &[u8]) -> u32
    ensures { result ≡ (restored run.now).verdict }
{
    run_saved::decode(run).verdict
}

pub fn songrafter_steps(run: &[u8]) -> u64
    ensures { result ≡ (restored run.now).steps }
{
    run_saved::decode(run).steps
}

pub fn songrafter_fields(run: &[u8]) -> u64
    ensures { result ≡ (restored run.now).captures }
{
    run_saved::decode(run).captures
}

pub fn songrafter_position(run: &[u8]) -> u64
    ensures { result ≡ (restored run.now).position }
{
    run_saved::decode(run).position
}

pub fn songrafter_value(run: &[u8], k: usize) -> i64
    ensures { result ≡ get_or (restored run.now).values k (pos 0) }
{
    let values = run_saved::decode(run).values;
    if k < MAX_VARIABLES {
        return values[k];
    }
    0
}
