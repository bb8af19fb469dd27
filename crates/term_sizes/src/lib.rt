// The size rule of refusal 8: sizes of calculations, and which lists of terms can never leave 2^62.
#![tactic(auto)]

ghost use Rattle.std.specs.Prelude.{◌≡◌};
ghost use Rattle.term_words.specs.Words.{terms};
ghost use Rattle.term_sizes.specs.Sizes.{past, of_calculated, of_tested, of_counted, judged, sizes, count_sizes};

use term_evaluation::counts::tally;
use term_evaluation::{Allowed, number, verdict, work_out};
use term_words::{Kind, Mode, Numbers, TermError};

// What is wrong with a list: it is not well formed, or a size passes 2^62, and at this term of the first calculation where one does.
#[derive(Clone, Copy, Debug, PartialEq, Eq)]
pub enum SizeError {
    Malformed,
    Exceeds(usize),
}

fn past(error: TermError, at: usize) -> Result<(), SizeError>
    ensures { result ≡ past error at }
{
    match error {
        TermError::Malformed => Err(SizeError::Malformed),
        TermError::Overflow => Err(SizeError::Exceeds(at)),
    }
}

fn of_calculated(answer: Result<i64, TermError>, at: usize) -> Result<(), SizeError>
    ensures { result ≡ of_calculated answer at }
{
    match answer {
        Ok(_) => Ok(()),
        Err(error) => past(error, at),
    }
}

fn of_tested(answer: Result<bool, TermError>, at: usize) -> Result<(), SizeError>
    ensures { result ≡ of_tested answer at }
{
    match answer {
        Ok(_) => Ok(()),
        Err(error) => past(error, at),
    }
}

fn of_counted(answer: Result<Allowed, TermError>, at: usize) -> Result<(), SizeError>
    ensures { result ≡ of_counted answer at }
{
    match answer {
        Ok(_) => Ok(()),
        Err(error) => past(error, at),
    }
}

fn judge(kind: Kind, trial: Result<(Numbers, u64), TermError>, at: usize) -> Result<(), SizeError>
    ensures { result ≡ judged kind trial at }
{
    match kind {
        Kind::Calculation => of_calculated(number(trial), at),
        Kind::Set | Kind::Condition => of_tested(verdict(trial), at),
    }
}

// The sizes of a calculation, or of all the calculations of a set or a condition; `widest` has the size of each variable.
pub fn measure(
    kind: Kind,
    words: &[u32],
    start: usize,
    end: usize,
    widest: &[i64],
) -> Result<(), SizeError>
    ensures { result ≡ sizes kind widest.now start (terms words.now start end) }
{
    let ended = work_out(kind, Mode::Sizes, words, start, end, widest, 0);
    judge(kind, ended.trial, ended.at)
}

// The sizes of counts.
pub fn measure_counts(
    words: &[u32],
    start: usize,
    end: usize,
    widest: &[i64],
) -> Result<(), SizeError>
    ensures { result ≡ count_sizes widest.now words.now start end }
{
    let all = tally(Mode::Sizes, words, start, end, widest);
    of_counted(all.counted, all.at)
}
