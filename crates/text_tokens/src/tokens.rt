// The token at or after a place.
ghost use Rattle.std.specs.Prelude.{◌≡◌, ◌<◌, length};
ghost use Rattle.text_tokens.specs.Tokens.{is_pair, pair_of, sign_of, name_token, number_token, literal_token as literal-token-of, sign_token, token_begun, token_of};

use crate::gaps::gap;
use crate::numbers::number_end;
use crate::{Kind, Token};
use basis::MAX_NAME_BYTES;
use text_header::Class;
use text_header::bytes::{digit, letter};
use text_header::spans::{byte_at, span};
use text_literals::{quote, reach, right};

fn pair(b: u8, c: u8) -> bool
    ensures { result ≡ is_pair b c }
{
    c == b'=' && (b == b'!' || b == b'<' || b == b'>')
}

fn pair_kind(b: u8) -> Kind
    ensures { result ≡ pair_of b }
{
    match b {
        b'!' => Kind::Unequal,
        b'<' => Kind::AtMost,
        _ => Kind::AtLeast,
    }
}

fn sign_kind(b: u8) -> Kind
    ensures { result ≡ sign_of b }
{
    match b {
        b'=' => Kind::Equal,
        b';' => Kind::Semicolon,
        b'|' => Kind::Bar,
        b'&' => Kind::Ampersand,
        b'(' => Kind::OpenParen,
        b')' => Kind::CloseParen,
        b'[' => Kind::OpenBracket,
        b']' => Kind::CloseBracket,
        b'{' => Kind::OpenBrace,
        b'}' => Kind::CloseBrace,
        b'?' => Kind::Question,
        b'*' => Kind::Star,
        b'+' => Kind::Plus,
        b'-' => Kind::Minus,
        b'~' => Kind::Tilde,
        b'!' => Kind::Bang,
        b',' => Kind::Comma,
        b':' => Kind::Colon,
        b'<' => Kind::Less,
        b'>' => Kind::Greater,
        _ => Kind::Fault,
    }
}

#[tactic(auto, using(text_header::proofs::Runs::span_grows), unfolding(crate::specs::Tokens::name_token))]
fn name(text: &[u8], at: usize) -> Token
    ensures { result ≡ name_token text.now at }
{
    let end = span(Class::Name, text, at);
    if end - at <= MAX_NAME_BYTES {
        return Token {
            start: at,
            end,
            kind: Kind::Name,
        };
    }
    Token {
        start: at,
        end,
        kind: Kind::Fault,
    }
}

#[tactic(auto, unfolding(crate::specs::Tokens::number_token))]
fn number(text: &[u8], at: usize) -> Token
    requires { at < length text.now }
    ensures { result ≡ number_token text.now at }
{
    Token {
        start: at,
        end: number_end(text, at),
        kind: Kind::Number,
    }
}

#[tactic(auto, unfolding(crate::specs::Tokens::literal_token))]
fn literal_token(text: &[u8], at: usize) -> Token
    requires { at < length text.now }
    ensures { result ≡ literal-token-of text.now at }
{
    let r = reach(text, at);
    let end = r.end;
    if right(r) {
        return Token {
            start: at,
            end,
            kind: Kind::Literal,
        };
    }
    Token {
        start: at,
        end,
        kind: Kind::Fault,
    }
}

#[tactic(auto, unfolding(crate::specs::Tokens::sign_token))]
fn sign(text: &[u8], at: usize) -> Token
    requires { at < length text.now }
    ensures { result ≡ sign_token text.now at }
{
    let b = byte_at(text, at);
    if pair(b, byte_at(text, at + 1)) {
        return Token {
            start: at,
            end: at + 2,
            kind: pair_kind(b),
        };
    }
    Token {
        start: at,
        end: at + 1,
        kind: sign_kind(b),
    }
}

#[tactic(auto, unfolding(crate::specs::Tokens::token_begun))]
fn begun(text: &[u8], at: usize) -> Token
    requires { at < length text.now }
    ensures { result ≡ token_begun text.now at }
{
    let b = byte_at(text, at);
    if letter(b) {
        return name(text, at);
    }
    if digit(b) {
        return number(text, at);
    }
    if quote(b) {
        return literal_token(text, at);
    }
    sign(text, at)
}

// Places count from the first byte of `rules`.
pub fn token_at(rules: &[u8], at: usize) -> Token
    ensures { result ≡ token_of rules.now at }
{
    let start = gap(rules, at);
    if start < rules.len() {
        return begun(rules, start);
    }
    Token {
        start,
        end: start,
        kind: Kind::End,
    }
}
