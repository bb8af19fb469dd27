// A calculation without variables, worked out from the text. Where it passes 2^62, which is refusal 8, it counts as 0.
use text_parsing::terminals::look;

// Its value, and the place behind its last token.
#[derive(Clone, Copy)]
pub struct Worked {
    pub value: i64,
    pub end: usize,
}

// What is worked out so far: a sum, and a product that is still to be added. `open`: a number or its minus must come.
#[derive(Clone, Copy)]
struct State {
    sum: i64,
    product: i64,
    open: bool,
}

fn kept(res: Option<i64>) -> i64 {
    res.unwrap_or(0)
}

fn opposite(n: i64) -> i64 {
    kept(term_integers::negate(n))
}

fn total(state: State) -> i64 {
    kept(term_integers::add(state.sum, state.product))
}

fn times(state: State, value: usize) -> State {
    let n = kept(term_integers::whole(value as u64));
    State {
        product: kept(term_integers::multiply(state.product, n)),
        open: false,
        ..state
    }
}

fn signed(state: State) -> State {
    State {
        product: opposite(state.product),
        open: true,
        ..state
    }
}

// A new product, with the sign of what stands before it.
fn next_product(state: State, sign: i64) -> State {
    State {
        sum: total(state),
        product: sign,
        open: true,
    }
}

fn minus(state: State) -> State {
    if state.open {
        return signed(state);
    }
    next_product(state, opposite(1))
}

fn factor(state: State) -> State {
    State {
        open: true,
        ..state
    }
}

fn stepped(state: State, code: usize, value: usize) -> State {
    match code {
        2 => times(state, value),
        45 => minus(state),
        43 => next_product(state, 1),
        _ => factor(state),
    }
}

// A number, or a sign of a calculation.
fn belongs(code: usize) -> bool {
    matches!(code, 2 | 42 | 43 | 45)
}

// The calculation at a place.
pub fn worked_out(grammar: &[u8], at: usize) -> Worked {
    let mut state = State {
        sum: 0,
        product: 1,
        open: true,
    };
    let mut here = at;
    for _tokens in 0..8192 {
        let terminal = look(grammar, here);
        let code = terminal.code;
        if !belongs(code) {
            return Worked {
                value: total(state),
                end: here,
            };
        }
        state = stepped(state, code, terminal.value);
        here = terminal.end;
    }
    Worked {
        value: total(state),
        end: here,
    }
}

// Whether a calculation may begin with the token.
pub fn begins(code: usize) -> bool {
    matches!(code, 2 | 45)
}
