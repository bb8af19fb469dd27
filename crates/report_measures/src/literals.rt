// The characters of literals.
ghost use Rattle.std.specs.Prelude.{◌<◌};

use table_layout::{LITERALS_AT, word};

// Character k of the literal i.
pub fn character(table: &[u32], i: usize, k: usize) -> usize
    ensures { result < 256 }
{
    if i < 256 && k < 32 {
        return (word(table, LITERALS_AT + 8 * i + k / 4) >> (8 * (k % 4))) % 256;
    }
    0
}
