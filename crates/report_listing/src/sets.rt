// The sets behind clashes, where the arrays are as long as they must be.
ghost use Rattle.std.specs.Prelude.{Bool};
ghost use Rattle.report_tables.specs.Tables.{TextEncoding};

use table_conflicts::Clash;

// The clash of construct i.
pub fn clash(table: &[u32], follow: &[u64], prediction: &[u64], i: usize) -> Clash {
    if i < 256 && 16384 <= table.len() && follow.len() == 2056 && prediction.len() == 2056 {
        return table_conflicts::conflict(table, follow, prediction, i);
    }
    Clash::None
}

// Whether construct i is a repetition whose body may be empty.
pub fn empty_body(table: &[u32], first: &[u64], i: usize) -> bool {
    i < 256 && first.len() == 2056 && table_conflicts::empty_body(table, first, i)
}

pub fn first(table: &[u32], family: &mut [u64]) {
    if family.len() == 2056 {
        table_first_follow::first::first(table, family);
    }
}

#[derive(Drop)]
pub struct Words {
    pub words: [u32; 16384],
}

// The table's words of a text, whether or not it is refused; zeros of one that has none.
pub fn encoded(grammar: &[u8]) -> Words
    ensures { (found : Bool) × TextEncoding grammar.now result.words found }
{
    let mut words = [0u32; 16384];
    report_tables::tables::encode(grammar, &mut words);
    Words { words }
}
