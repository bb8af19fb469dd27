// Which brackets are open at a place of the rules, and where the token before it ends.
use basis::MAX_TEXT_BYTES;
use text_parsing::terminals::look;

// What a bracket encloses: a group, a uint or sint, a var, a switch before the colon of a case, a switch after it, counts, or a part of a
// set or a condition.
#[derive(Clone, Copy, PartialEq, Eq)]
pub enum Kind {
    Group,
    Field,
    Variable,
    Switch,
    Case,
    Counts,
    Formula,
}

// A bracket that is open, and where it stands.
#[derive(Clone, Copy)]
pub struct Bracket {
    pub kind: Kind,
    pub place: usize,
}

// The innermost bracket that is open, and where the last token ends.
#[derive(Clone, Copy)]
pub struct Before {
    pub innermost: Option<Bracket>,
    pub end: usize,
}

// Parentheses and brackets go 16 deep, and braces hold none of them.
const MOST_OPEN: usize = 18;

// The brackets that are open, the innermost last.
#[derive(Clone, Copy)]
struct Open {
    brackets: [Bracket; MOST_OPEN],
    count: usize,
}

impl Open {
    fn none() -> Open {
        let unused = Bracket {
            kind: Kind::Group,
            place: 0,
        };
        Open {
            brackets: [unused; MOST_OPEN],
            count: 0,
        }
    }

    fn innermost(&self) -> Option<Bracket> {
        if self.count == 0 {
            return None;
        }
        self.brackets.get(self.count - 1).copied()
    }

    fn kind(&self) -> Option<Kind> {
        match self.innermost() {
            Some(bracket) => Some(bracket.kind),
            None => None,
        }
    }

    fn push(&mut self, kind: Kind, place: usize) {
        if self.count < MOST_OPEN {
            self.brackets[self.count] = Bracket { kind, place };
            self.count += 1;
        }
    }

    fn pop(&mut self) {
        self.count = self.count.saturating_sub(1);
    }

    // The innermost is of another kind from here on.
    fn turn(&mut self, kind: Kind) {
        if let Some(bracket) = self.innermost() {
            self.pop();
            self.push(kind, bracket.place);
        }
    }

    // What a parenthesis encloses, by the token before it.
    fn parenthesis(&self, last: usize) -> Kind {
        match last {
            6 => Kind::Field,
            8 => Kind::Variable,
            _ => {
                if matches!(
                    self.kind(),
                    Some(Kind::Field | Kind::Variable | Kind::Switch | Kind::Formula)
                ) {
                    Kind::Formula
                } else {
                    Kind::Group
                }
            }
        }
    }

    // One token more: its code and place, and the code of the token before.
    fn step(&mut self, last: usize, code: usize, place: usize) {
        match code {
            40 => self.push(self.parenthesis(last), place),
            91 => self.push(Kind::Switch, place),
            123 => self.push(Kind::Counts, place),
            41 | 93 | 125 => self.pop(),
            58 => {
                if self.kind() == Some(Kind::Switch) {
                    self.turn(Kind::Case);
                }
            }
            59 => {
                if self.kind() == Some(Kind::Case) {
                    self.turn(Kind::Switch);
                }
            }
            _ => {}
        }
    }
}

// Before the place `at`, with the rules from `base` on. In front of the rules stands as much as a `;`.
pub fn open_at(grammar: &[u8], base: usize, at: usize) -> Before {
    let mut open = Open::none();
    let mut last: usize = 59;
    let mut end = base;
    for _tokens in 0..MAX_TEXT_BYTES {
        let terminal = look(grammar, end);
        if at <= terminal.start {
            break;
        }
        open.step(last, terminal.code, terminal.start);
        last = terminal.code;
        end = terminal.end;
    }
    Before {
        innermost: open.innermost(),
        end,
    }
}
