// The header, line by line.
use crate::fields::{Named, variable_of};
use crate::{Admitted, spelling};
use report_measures::lengths::width_of;
use report_measures::words::number_at;
use report_wording::lines;
use report_wording::writing::{number, say};
use std::io::Stdout;

// A field's name, and its number where an earlier field has the same name: no other constant ends with it.
#[derive(Clone, Copy)]
struct Name {
    field: Named,
    number: Option<usize>,
}

// A header of an admitted grammar, with a prefix in front of every name.
#[derive(Clone, Copy)]
pub struct Header<'a> {
    pub out: Stdout,
    pub prefix: &'a [u8],
    pub admitted: Admitted<'a>,
}

impl Header<'_> {
    fn say(&self, bytes: &[u8]) {
        say(self.out, bytes);
    }

    // Whether a field before field i has its name.
    fn again(&self, i: usize, named: Named) -> bool {
        for j in 0..i {
            if let Some(other) = self.admitted.field(j) {
                if spelling::same(self.admitted.grammar, other, named) {
                    return true;
                }
            }
        }
        false
    }

    fn constant(&self, name: Name, what: &[u8], value: usize) {
        self.say(b"#define ");
        self.say(self.prefix);
        spelling::name(self.out, self.admitted.grammar, name.field);
        self.say(what);
        if let Some(i) = name.number {
            number(self.out, b"_", i);
        }
        number(self.out, b" ", value);
        self.say(b"u");
    }

    fn field_named(&self, i: usize, name: Name) {
        let Admitted {
            grammar,
            table,
            constructs,
            ..
        } = self.admitted;
        self.constant(name, b"_CONSTRUCT", i);
        self.say(b" /* ");
        lines::place(self.out, grammar, number_at(constructs, i));
        self.say(b" */\n");
        self.constant(name, b"_WIDTH", width_of(table, i));
        self.say(b"\n");
        if let Some(variable) = variable_of(table, i) {
            self.constant(name, b"_VARIABLE", variable);
            self.say(b"\n");
        }
    }

    fn field_at(&self, i: usize) {
        if let Some(field) = self.admitted.field(i) {
            let number = if self.again(i, field) { Some(i) } else { None };
            self.field_named(i, Name { field, number });
        }
    }

    // A line with a name that begins with the start rule's.
    fn whole(&self, before: &[u8], what: &[u8]) {
        let Admitted { grammar, rules, .. } = self.admitted;
        self.say(before);
        self.say(self.prefix);
        spelling::word(self.out, grammar, number_at(rules, 0));
        self.say(what);
    }

    fn guarded(&self) {
        self.say(
            b"/* Fields and variables of a grammar by their names, for songrafter_field and\n \
            * songrafter_value. Printed by `names`: to be printed anew where the grammar\n \
            * changes. */\n",
        );
        self.whole(b"#ifndef ", b"_NAMES_H\n");
        self.whole(b"#define ", b"_NAMES_H\n\n");
        self.say(b"#include <stddef.h>\n#include <stdint.h>\n\n");
    }

    fn bounds(&self, weight: usize) {
        self.whole(b"#define ", b"_WEIGHT ");
        number(self.out, b"", weight);
        self.say(b"u\n/* So many steps decide a frame of so many bits. */\n");
        self.whole(b"#define ", b"_STEPS(bits) (");
        number(self.out, b"", weight);
        self.say(
            b"u * ((uint64_t)(bits) + 1u))\n\
            /* So many words are room for the reading of a frame of so many bytes. */\n",
        );
        self.whole(b"#define ", b"_READING_WORDS(bytes) ");
        self.say(b"((size_t)16 * (bytes))\n\n");
    }

    pub fn print(&self, weight: usize) {
        self.guarded();
        self.bounds(weight);
        for i in 0..256 {
            self.field_at(i);
        }
        self.say(b"\n#endif\n");
    }
}
