// The terminal at or after a place.
ghost use Rattle.std.specs.Prelude.{◌≡◌, cond, ◌≤◌, ◌<◌, length};
ghost use Rattle.text_parsing.specs.Terminals.{code_of, opens_at, name_code, literal_code, seen, terminal_of};

use crate::Terminal;
use text_literals::count_at;
use text_tokens::Kind;
use text_tokens::names::reserved;
use text_tokens::numbers::number_at;
use text_tokens::tokens::token_at;

fn code(kind: Kind) -> usize
    ensures { result ≡ code_of kind }
{
    match kind {
        Kind::Name => 1,
        Kind::Number => 2,
        Kind::Literal => 3,
        Kind::Fault => 4,
        Kind::End => 5,
        Kind::Equal => 61,
        Kind::Semicolon => 59,
        Kind::Bar => 124,
        Kind::Ampersand => 38,
        Kind::OpenParen => 40,
        Kind::CloseParen => 41,
        Kind::OpenBracket => 91,
        Kind::CloseBracket => 93,
        Kind::OpenBrace => 123,
        Kind::CloseBrace => 125,
        Kind::Question => 63,
        Kind::Star => 42,
        Kind::Plus => 43,
        Kind::Minus => 45,
        Kind::Tilde => 126,
        Kind::Bang => 33,
        Kind::Comma => 44,
        Kind::Colon => 58,
        Kind::Less => 60,
        Kind::Greater => 62,
        Kind::Unequal => 161,
        Kind::AtMost => 188,
        Kind::AtLeast => 190,
    }
}

fn opens(text: &[u8], at: usize) -> bool
    ensures { result ≡ opens_at text.now at }
{
    code(token_at(text, at).kind) == 40
}

fn before_paren(text: &[u8], at: usize, special: usize) -> usize
    ensures { result ≡ cond (opens_at text.now at) special 1 }
{
    if opens(text, at) { special } else { 1 }
}

#[tactic(auto, unfolding(crate::specs::Terminals::name_code))]
fn name_of(text: &[u8], start: usize, end: usize) -> usize
    requires { (start ≤ end) × (end ≤ length text.now) }
    ensures { result ≡ name_code text.now start end }
{
    match reserved(&text[start..end]) {
        12 | 13 => before_paren(text, end, 6),
        9 => before_paren(text, end, 8),
        10 => 7,
        _ => 1,
    }
}

#[tactic(auto, unfolding(crate::specs::Terminals::literal_code))]
fn literal_of(text: &[u8], start: usize) -> usize
    requires { start < length text.now }
    ensures { result ≡ literal_code text.now start }
{
    if count_at(text, start) == 1 { 9 } else { 3 }
}

#[tactic(auto, unfolding(crate::specs::Terminals::seen))]
fn told(text: &[u8], code: usize, start: usize, end: usize) -> Terminal
    requires { (start < end) × (end ≤ length text.now) }
    ensures { result ≡ seen text.now code start end }
{
    let (code, value) = match code {
        1 => (name_of(text, start, end), 0),
        2 => (2, number_at(text, start) as usize),
        3 => (literal_of(text, start), 0),
        _ => (code, 0),
    };
    Terminal {
        code,
        start,
        end,
        value,
    }
}

pub fn look(text: &[u8], at: usize) -> Terminal
    ensures { result ≡ terminal_of text.now at }
{
    let token = token_at(text, at);
    let start = token.start;
    let end = token.end;
    let code = code(token.kind);
    if start < end {
        return told(text, code, start, end);
    }
    Terminal {
        code,
        start,
        end,
        value: 0,
    }
}
