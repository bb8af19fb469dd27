// Tokens of a grammar's rules. Nothing is stored: a token is found at a place.
#![tactic(auto)]

mod gaps;
pub mod names;
pub mod numbers;
pub mod tokens;

#[derive(Clone, Copy)]
pub enum Kind {
    Name,
    Number,
    Literal,
    Equal,
    Semicolon,
    Bar,
    Ampersand,
    OpenParen,
    CloseParen,
    OpenBracket,
    CloseBracket,
    OpenBrace,
    CloseBrace,
    Question,
    Star,
    Plus,
    Minus,
    Tilde,
    Bang,
    Comma,
    Colon,
    Less,
    Greater,
    // `!=`
    Unequal,
    // `<=`
    AtMost,
    // `>=`
    AtLeast,
    // a token that can stand nowhere
    Fault,
    // the text's end
    End,
}

#[derive(Clone, Copy)]
pub struct Token {
    pub start: usize,
    pub end: usize,
    pub kind: Kind,
}
