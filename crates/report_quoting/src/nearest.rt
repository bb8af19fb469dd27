// A name that is nearly another one: the same but for letter case, or for one byte that is wrong, missing, too many, or two that changed places.
use basis::MAX_TEXT_BYTES;
use text_header::Class;
use text_header::spans::span;
use text_parsing::terminals::look;

// The name at a place.
fn name_at(grammar: &[u8], at: usize) -> &[u8] {
    grammar
        .get(at..span(Class::Name, grammar, at))
        .unwrap_or(&[])
}

fn same(a: u8, b: u8) -> bool {
    a.eq_ignore_ascii_case(&b)
}

// How many bytes two names begin with alike.
fn alike(a: &[u8], b: &[u8]) -> usize {
    a.iter().zip(b).take_while(|(x, y)| same(**x, **y)).count()
}

// How many bytes they end with alike.
fn alike_back(a: &[u8], b: &[u8]) -> usize {
    a.iter()
        .rev()
        .zip(b.iter().rev())
        .take_while(|(x, y)| same(**x, **y))
        .count()
}

// What is left of two names without the bytes that they begin with alike, and then without those that they end with alike.
fn near_by(a: &[u8], b: &[u8]) -> bool {
    match (a, b) {
        ([] | [_], [] | [_]) => true,
        ([a, b], [x, y]) => same(*a, *y) && same(*b, *x),
        _ => false,
    }
}

fn without(name: &[u8], first: usize, last: usize) -> &[u8] {
    name.get(first..name.len().saturating_sub(last))
        .unwrap_or(&[])
}

fn near_of(a: &[u8], b: &[u8]) -> bool {
    let first = alike(a, b);
    let last = alike_back(without(a, first, 0), without(b, first, 0));
    near_by(without(a, first, last), without(b, first, last))
}

// Names of at least three bytes.
pub fn near(grammar: &[u8], a: usize, b: usize) -> bool {
    let a = name_at(grammar, a);
    let b = name_at(grammar, b);
    3 <= a.len().min(b.len()) && near_of(a, b)
}

// Whether a name is defined: as a rule's after `;`, or as a variable's after `var(`.
fn defined(second: usize, last: usize, next: usize, variable: bool) -> bool {
    if variable {
        second == 8 && last == 40
    } else {
        last == 59 && next == 61
    }
}

// The first rule's name, or variable's, that is nearly the name at a place.
pub fn nearest(grammar: &[u8], base: usize, at: usize, variable: bool) -> Option<usize> {
    let mut here = base;
    let mut second: usize = 59;
    let mut last: usize = 59;
    for _tokens in 0..MAX_TEXT_BYTES {
        let terminal = look(grammar, here);
        if terminal.code == 5 {
            break;
        }
        let next = look(grammar, terminal.end).code;
        if terminal.code == 1
            && terminal.start != at
            && defined(second, last, next, variable)
            && near(grammar, terminal.start, at)
        {
            return Some(terminal.start);
        }
        second = last;
        last = terminal.code;
        here = terminal.end;
    }
    None
}
