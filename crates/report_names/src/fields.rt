// The fields of a table, and what each is named by.
use crate::{Admitted, places};
use report_measures::structure::body_of;
use report_measures::words::number_at;
use table_layout::{Construct, construct_at, word};

#[derive(Clone, Copy, PartialEq, Eq)]
pub enum Kind {
    Literal,
    Range,
    Uint,
    Sint,
}

// What a field is named by in its rule: its variable, by the place of that name; or its kind, and which of the rule's fields of that kind without a
// variable it is, from 1.
#[derive(Clone, Copy)]
pub enum Own {
    Variable(usize),
    Counted(Kind, usize),
}

// Where the rule's name stands, and the field's own name.
#[derive(Clone, Copy)]
pub struct Named {
    pub rule: usize,
    pub own: Own,
}

// The kind of construct i, where it is a field.
pub fn kind_of(table: &[u32], i: usize) -> Option<Kind> {
    match construct_at(table, i) {
        Construct::Literal { .. } => Some(Kind::Literal),
        Construct::Range { .. } => Some(Kind::Range),
        Construct::Uint { signed: true, .. } => Some(Kind::Sint),
        Construct::Uint { .. } => Some(Kind::Uint),
        _ => None,
    }
}

// The variable that construct i binds.
pub fn variable_of(table: &[u32], i: usize) -> Option<usize> {
    table_layout::attributes_of(construct_at(table, i))
        .binder
        .checked_sub(1)
}

// The rule that construct i belongs to: the last whose body does not come after it.
fn rule_of(table: &[u32], i: usize) -> usize {
    (1..64)
        .rev()
        .find(|&k| k < word(table, 1) && body_of(table, k) <= i)
        .unwrap_or(0)
}

// How many fields of a kind without a variable there are from construct `from` up to construct i, itself too.
fn ordinal(table: &[u32], kind: Kind, from: usize, i: usize) -> usize {
    (from..i.saturating_add(1))
        .filter(|&j| kind_of(table, j) == Some(kind) && variable_of(table, j).is_none())
        .count()
}

impl Admitted<'_> {
    fn own(&self, kind: Kind, rule: usize, i: usize) -> Own {
        if variable_of(self.table, i).is_some() {
            Own::Variable(places::bound(self.grammar, number_at(self.constructs, i)))
        } else {
            let body = body_of(self.table, rule);
            Own::Counted(kind, ordinal(self.table, kind, body, i))
        }
    }

    // What construct i is named by, where it is a field.
    pub fn field(&self, i: usize) -> Option<Named> {
        let kind = kind_of(self.table, i)?;
        let rule = rule_of(self.table, i);
        Some(Named {
            rule: number_at(self.rules, rule),
            own: self.own(kind, rule, i),
        })
    }
}
