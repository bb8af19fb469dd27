// A run is opened; steps are granted by `run_grants`. Any words are answered or refused.
#![tactic(auto)]

ghost use Rattle.std.specs.Prelude.{◌≡◌};
ghost use Rattle.run_matcher.specs.Opening.{first_refusal, run_given, Answered};

use basis::MAX_FRAME_BYTES;
use run_grants::Run;

// What an opening is answered.
#[derive(Clone, Copy)]
pub enum Answer {
    // Refused: the table is not sound.
    Unsound,
    // Refused: the frame is over 1,024 bytes.
    LongFrame,
    // Refused: the reading has under two words for each bit of the frame.
    SmallReading,
    Opened,
}

// The run is closed where the opening is refused.
#[derive(Clone, Copy)]
pub struct Opening {
    pub run: Run,
    pub answer: Answer,
}

// 23, 21 and 22 are tried in this order.
fn first_refusal(unsound: bool, long: bool, small: bool) -> Answer
    ensures { result ≡ first_refusal unsound long small }
{
    if unsound {
        return Answer::Unsound;
    }
    if long {
        return Answer::LongFrame;
    }
    if small {
        return Answer::SmallReading;
    }
    Answer::Opened
}

fn tried(table: &[u32], frame: &[u8], reading: &[u32]) -> Answer
    ensures { Answered table.now frame.now reading.now result }
{
    let unsound = !table_judge::sound::sound(table);
    let bytes = frame.len();
    let long = MAX_FRAME_BYTES < bytes;
    // two words for each bit; 16 * bytes may not fit
    let small = reading.len() / 16 < bytes;
    first_refusal(unsound, long, small)
}

fn given(answer: Answer) -> Run
    ensures { result ≡ run_given answer }
{
    match answer {
        Answer::Unsound => run_grants::closed(),
        Answer::LongFrame => run_grants::closed(),
        Answer::SmallReading => run_grants::closed(),
        Answer::Opened => run_grants::opened(),
    }
}

// A run over a table, a frame and a reading; no word of them is changed.
pub fn open(table: &[u32], frame: &[u8], reading: &[u32]) -> Opening
    ensures { (result.run ≡ run_given result.answer) × Answered table.now frame.now reading.now result.answer }
{
    let answer = tried(table, frame, reading);
    let run = given(answer);
    Opening { run, answer }
}
