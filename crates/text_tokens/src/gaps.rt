// Separators and comments.
ghost use Rattle.std.specs.Prelude.{◌≡◌, false, drop};
ghost use Rattle.text_tokens.specs.Tokens.{separates as separatesOf, comment_after, gap_end};

use text_header::bytes::separator;

fn separates(comment: bool, b: u8) -> bool
    ensures { result ≡ separatesOf comment b }
{
    comment || separator(b) || b == b'#'
}

fn commented(comment: bool, b: u8) -> bool
    ensures { result ≡ comment_after comment b }
{
    if comment {
        return b != b'\n';
    }
    b == b'#'
}

// Where the separators and comments from `at` on end.
pub fn gap(text: &[u8], at: usize) -> usize
    ensures { result ≡ gap_end false at (drop at text.now) }
{
    let mut comment = false;
    for i in at..text.len() {
        let b = text[i];
        if !separates(comment, b) {
            return i;
        }
        comment = commented(comment, b);
    }
    at.max(text.len())
}
