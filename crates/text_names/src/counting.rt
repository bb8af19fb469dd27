// The least of places.
ghost use Rattle.std.specs.Prelude.{◌≡◌, min as minOf};
ghost use Rattle.text_names.specs.Counting.{place_if};

pub fn min(a: usize, b: usize) -> usize
    ensures { result ≡ minOf a b }
{
    if a <= b {
        return a;
    }
    b
}

// The place of a fault, or no place.
pub fn place_if(fault: bool, p: usize) -> usize
    ensures { result ≡ place_if fault p }
{
    if fault {
        return p;
    }
    18446744073709551615
}
