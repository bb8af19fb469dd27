// Operations on one word. A result is known to be a word, which an element of an array is not.
ghost use Rattle.std.specs.Prelude.{◌≡◌, ◌*◌, ◌/◌, ◌<◌};
ghost use Rattle.lookahead.specs.Inner.{Lowest};

// The word with bit 0 clear.
pub fn even(w: u64) -> u64
    ensures { result ≡ w / 2 * 2 }
{
    w / 2 * 2
}

// The place of the lowest bit.
pub fn trailing_zeros(w: u64) -> usize
    requires { 0 < w }
    ensures { Lowest w result }
{
    u64::trailing_zeros(w) as usize
}

// The word itself.
pub fn same(w: u64) -> u64
    ensures { result ≡ w }
{
    w
}
