// A number of a lent list; past its end there is none, read as 0.
ghost use Rattle.std.specs.Prelude.{◌≡◌, get_or};

pub fn number_at(words: &[usize], k: usize) -> usize
    ensures { result ≡ get_or words.now k 0 }
{
    if k < words.len() {
        return words[k];
    }
    0
}
