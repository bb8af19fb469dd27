// Which lists have a variable's use.
ghost use Rattle.std.specs.Prelude.{◌≡◌};
ghost use Rattle.term_words.specs.Words.{terms};
ghost use Rattle.term_evaluation.specs.Variables.{is_use, uses_variable, has_variable};

use term_words::decode::term_at;
use term_words::{Operation, Term};

fn is_use(operation: Operation) -> bool
    ensures { result ≡ is_use operation }
{
    matches!(operation, Operation::Variable(_))
}

fn uses_variable(term: Term) -> bool
    ensures { result ≡ uses_variable term }
{
    match term {
        Term::Part(operation) | Term::Single(operation) => is_use(operation),
        _ => false,
    }
}

// Whether a list has a variable's use: such a set counts as `~`, and such counts allow all.
pub fn has_variable(words: &[u32], start: usize, end: usize) -> bool
    ensures { result ≡ has_variable (terms words.now start end) }
{
    for at in start..end {
        if words.len() / 3 <= at {
            return false;
        }
        if uses_variable(term_at(words, at)) {
            return true;
        }
    }
    false
}
