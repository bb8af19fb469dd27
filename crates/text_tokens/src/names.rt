// Names: reserved words.
ghost use Rattle.std.specs.Prelude.{◌≡◌, ◌≤◌, length};
ghost use Rattle.text_header.specs.Header.{lines};
ghost use Rattle.text_tokens.specs.Names.{word_number, reserved_of};

use text_header::Class;
use text_header::spans::{span, spells};

// The number of a name in a list of words that each end with LF, from 1; 0 where it is none of them.
fn number_in(words: &[u8], name: &[u8]) -> usize
    ensures { result ≡ word_number 1 (lines words.now) name.now }
{
    let mut at = 0;
    let mut k = 1;
    while at < words.len() {
        let end = span(Class::Except(b'\n'), words, at);
        if words.len() <= end {
            return 0;
        }
        if spells(false, &words[at..end], name) {
            return k;
        }
        at = end + 1;
        k += 1;
    }
    0
}

// The number of a reserved word, from 1; 0 of any other name.
pub fn reserved(name: &[u8]) -> usize
    ensures { result ≡ reserved_of name.now }
{
    number_in(
        b"sized\naligned\nreversed\nordered\nbyte_order\nbom_ordered\npeek\noffset\nvar\neod\nunicode\nuint\nsint\nfloat\ninf\nnan\nnzero\nordering\nunicode_categories\nmsb\nlsb\n",
        name,
    )
}
