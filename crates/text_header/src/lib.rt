// A grammar's text: bytes, header, tokens. Any bytes may arrive.
#![tactic(auto)]

pub mod bytes;
pub mod header;
pub mod spans;

// Bytes that a run may have.
#[derive(Clone, Copy)]
pub enum Class {
    Blank,
    // 20 to 7e, or a tab
    Header,
    Name,
    // digits of a radix up to 16
    Digit(u8),
    // all but one
    Except(u8),
}

// The answer to a header.
#[derive(Clone, Copy)]
pub enum Heading {
    // the place where the rules begin
    Rules(usize),
    // the place of the refusal
    Wrong(usize),
}
