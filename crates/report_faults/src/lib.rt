// What is wrong with a name of a text (6), for the report.
#![tactic(auto)]

pub mod faults;

// What is wrong with a name that is not reserved. Numbers are places.
#[derive(Clone, Copy)]
pub enum Fault {
    // A rule's name, which a rule above has.
    Double(usize),
    // Used as a rule: there is none of that name; or it is a variable, bound there.
    NoRule,
    Variable(usize),
    // Bound: for the second time in its rule; or where nothing may be bound.
    Twice(usize),
    Misplaced,
    // Used as a variable: bound in its rule, but not before; a rule's name; bound in another rule; none of these.
    Later(usize),
    Rule(usize),
    Elsewhere(usize),
    NoVariable,
}
