// The table's words go to the caller.
ghost use Rattle.std.specs.Prelude.{◌≡◌, ◌≤◌, length, take, drop};
ghost use Rattle.basis.specs.Limits.{table_words};

use basis::TABLE_WORDS;

pub fn copy(words: &[u32], table: &mut [u32])
    requires { (length words.now ≡ table_words) × (table_words ≤ length table.old) }
    ensures { (take table_words table.new ≡ words.now) × (drop table_words table.new ≡ drop table_words table.old) × (length table.new ≡ length table.old) }
{
    for k in 0..TABLE_WORDS {
        table[k] = words[k];
    }
}
