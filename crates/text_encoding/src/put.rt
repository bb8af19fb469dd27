// Words written into a table. What would stand past its end is not written.
ghost use Rattle.std.specs.Prelude.{◌≡◌, [], ◌∷◌, ◌<◌, ◌≤◌, ◌+◌, length, set};
ghost use Rattle.text_encoding.specs.Lists.{narrow as narrowOf, written};

fn narrow(n: usize) -> u32
    ensures { result ≡ narrowOf n }
{
    (n % 4294967296) as u32
}

fn put(table: &mut [u32], k: usize, n: usize)
    ensures { table.new ≡ set table.old k (narrowOf n) }
{
    if k < table.len() {
        table[k] = narrow(n);
    }
}

pub fn put_one(table: &mut [u32], k: usize, a: usize)
    ensures { table.new ≡ written table.old k (a ∷ []) }
{
    put(table, k, a);
}

pub fn put_two(table: &mut [u32], k: usize, a: usize, b: usize)
    requires { k < 65536 }
    ensures { table.new ≡ written table.old k (a ∷ b ∷ []) }
{
    put(table, k, a);
    put(table, k + 1, b);
}

pub fn put_three(table: &mut [u32], k: usize, a: usize, b: usize, c: usize)
    requires { k < 65536 }
    ensures { table.new ≡ written table.old k (a ∷ b ∷ c ∷ []) }
{
    put(table, k, a);
    put(table, k + 1, b);
    put(table, k + 2, c);
}

pub fn put_four(table: &mut [u32], k: usize, a: usize, b: usize, c: usize, d: usize)
    requires { k < 65536 }
    ensures { table.new ≡ written table.old k (a ∷ b ∷ c ∷ d ∷ []) }
{
    put(table, k, a);
    put(table, k + 1, b);
    put(table, k + 2, c);
    put(table, k + 3, d);
}
