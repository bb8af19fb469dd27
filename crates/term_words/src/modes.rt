// Signs whose sizes differ from their values.
ghost use Rattle.std.specs.Prelude.{◌≡◌};
ghost use Rattle.term_integers.specs.Wholes.{bounded};
ghost use Rattle.term_words.specs.Numbers.{difference_of, opposite_of};

use crate::Mode;
use term_integers::{add, in_bounds, negate, subtract};

// `a - b`, or the sum where sizes are worked out.
pub fn difference(mode: Mode, a: i64, b: i64) -> Option<i64>
    ensures { result ≡ bounded (difference_of mode a b) }
{
    match mode {
        Mode::Values => subtract(a, b),
        Mode::Sizes => add(a, b),
    }
}

// `-a`, or `a` where sizes are worked out.
pub fn turned(mode: Mode, a: i64) -> Option<i64>
    ensures { result ≡ bounded (opposite_of mode a) }
{
    match mode {
        Mode::Values => negate(a),
        Mode::Sizes => in_bounds(a),
    }
}
