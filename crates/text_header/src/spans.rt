// Runs of bytes of a class, and words.
ghost use Rattle.std.specs.Prelude.{◌≡◌, cond, length, get_or, drop};
ghost use Rattle.text_header.specs.Bytes.{lower_case};
ghost use Rattle.text_header.specs.Spans.{span_end, starts, is_word};

use crate::Class;
use crate::bytes::{lower, member};

// The byte at a place; 0 past the end, which no token wants.
pub fn byte_at(text: &[u8], at: usize) -> u8
    ensures { result ≡ get_or text.now at 0 }
{
    if at < text.len() {
        return text[at];
    }
    0
}

// Where the longest run of bytes of a class from `at` on ends.
pub fn span(class: Class, text: &[u8], at: usize) -> usize
    ensures { result ≡ span_end class at (drop at text.now) }
{
    for i in at..text.len() {
        if !member(class, text[i]) {
            return i;
        }
    }
    at.max(text.len())
}

fn cased(folded: bool, b: u8) -> u8
    ensures { result ≡ cond folded (lower_case b) b }
{
    if folded {
        return lower(b);
    }
    b
}

// Whether the text begins with a word.
pub fn begins(folded: bool, word: &[u8], text: &[u8]) -> bool
    ensures { result ≡ starts folded word.now text.now }
{
    for k in 0..word.len() {
        if text.len() <= k {
            return false;
        }
        if cased(folded, text[k]) != word[k] {
            return false;
        }
    }
    true
}

pub fn spells(folded: bool, word: &[u8], text: &[u8]) -> bool
    ensures { result ≡ is_word folded word.now text.now }
{
    word.len() == text.len() && begins(folded, word, text)
}
