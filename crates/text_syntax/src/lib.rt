// The syntax of a text: rules, expressions, and what they are made of.
#![tactic(auto)]

mod expressions;
mod fields;
pub mod rules;
