// The first variable of a set or a count.
use text_parsing::terminals::look;

// In `var(name, set)` the name is the one that is bound, and the set comes after it.
fn behind_bound(grammar: &[u8], at: usize) -> usize {
    let var = look(grammar, at);
    let open = look(grammar, var.end);
    let name = look(grammar, open.end);
    name.end
}

fn next(grammar: &[u8], code: usize, start: usize, end: usize) -> usize {
    if code == 8 {
        behind_bound(grammar, start)
    } else {
        end
    }
}

// The place of the first name from a place on, but for one that is bound there.
pub fn first_name(grammar: &[u8], at: usize) -> usize {
    let mut here = at;
    for _n in 0..1024 {
        let terminal = look(grammar, here);
        if terminal.code == 1 {
            return terminal.start;
        }
        here = next(grammar, terminal.code, terminal.start, terminal.end);
    }
    here
}
