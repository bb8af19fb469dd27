// Terms: the numbers, variable uses and signs in a grammar's sets, counts and conditions. A list of them stands in postfix order,
// three words to a term: tag, low, high. Parentheses leave no trace.
//
// tag  1  a number, low + 2^32 * high      7  `~` alone          14  `=`
//      2  a variable's use, its number low  8  `~` of `a~b`       15  `!=`
//      3  `+`                               9  `~` of `a~`        16  `<`
//      4  `-` of two                       10  `~` of `~b`        17  `<=`
//      5  `*`                              11  `|`                18  `>`
//      6  `-` of one                       12  `!`                19  `>=`
//                                          13  `&`
//
// An item that is one value, `a`, has no sign of its own: the last term of its calculation, tag 1 to 6, has 32 added to its tag.
#![tactic(auto)]

pub mod decode;
mod modes;
pub mod stack;
pub mod step;
mod truths;

// What a number, a variable's use or a sign of a calculation does. `Unknown` is no such term.
#[derive(Clone, Copy)]
pub enum Operation {
    Number(u64),
    Variable(usize),
    Add,
    Subtract,
    Multiply,
    Negate,
    Unknown,
}

#[derive(Clone, Copy)]
pub enum Comparison {
    Equal,
    Unequal,
    Less,
    AtMost,
    Greater,
    AtLeast,
}

// A term. `Single` is the last of a calculation that is an item `a` of a set; `Bad` is none of the tags.
#[derive(Clone, Copy)]
pub enum Term {
    Part(Operation),
    Single(Operation),
    All,
    Range,
    From,
    UpTo,
    Or,
    Except,
    And,
    Compare(Comparison),
    Bad,
}

// What a list of terms is to be.
#[derive(Clone, Copy)]
pub enum Kind {
    Calculation,
    Set,
    Condition,
}

// What is worked out: values, or sizes, which forget every minus.
#[derive(Clone, Copy)]
pub enum Mode {
    Values,
    Sizes,
}

// The numbers that wait for a sign, the last written last. A calculation needs three, and one may wait for its other side.
#[derive(Clone, Copy)]
pub enum Numbers {
    Zero,
    One(i64),
    Two(i64, i64),
    Three(i64, i64, i64),
    Four(i64, i64, i64, i64),
}

// Why a list of terms comes to nothing: a term that cannot stand there, or a number past 2^62.
#[derive(Clone, Copy, Debug, PartialEq, Eq)]
pub enum TermError {
    Malformed,
    Overflow,
}

// A sign that joins two tests.
#[derive(Clone, Copy)]
pub enum Joint {
    Or,
    And,
    Except,
}
