// What stands before a place of the rules.
ghost use Rattle.std.specs.Prelude.{◌≡◌};
ghost use Rattle.basis.specs.Limits.{max_text_bytes};
ghost use Rattle.report_wording.specs.Nesting.{is_opening, is_closing, nested};
ghost use Rattle.report_wording.specs.Walking.{started, stepped as steppedOf, before_from};

use basis::MAX_TEXT_BYTES;
use text_parsing::terminals::look;

// How many ( and [ are open, and the codes of the last three tokens. In front of the rules stands as much as a `;`.
#[derive(Clone, Copy)]
pub struct Context {
    pub depth: usize,
    pub third: usize,
    pub second: usize,
    pub last: usize,
}

// ( [
#[tactic(auto, unfolding(crate::specs::Nesting::is_opening))]
fn opens(code: usize) -> bool
    ensures { result ≡ is_opening code }
{
    code == 40 || code == 91
}

// ) ]
#[tactic(auto, unfolding(crate::specs::Nesting::is_closing))]
fn closes(code: usize) -> bool
    ensures { result ≡ is_closing code }
{
    code == 41 || code == 93
}

// How deep brackets are nested after a token.
#[tactic(auto, unfolding(crate::specs::Nesting::nested))]
pub fn nesting(code: usize, depth: usize) -> usize
    ensures { result ≡ nested code depth }
{
    if opens(code) {
        depth.saturating_add(1)
    } else if closes(code) {
        depth.saturating_sub(1)
    } else {
        depth
    }
}

fn start() -> Context
    ensures { result ≡ started }
{
    Context {
        depth: 0,
        third: 59,
        second: 59,
        last: 59,
    }
}

fn stepped(seen: Context, code: usize) -> Context
    ensures { result ≡ steppedOf code seen }
{
    Context {
        depth: nesting(code, seen.depth),
        third: seen.second,
        second: seen.last,
        last: code,
    }
}

// What stands before the place `at`, with the rules from `base` on.
pub fn before(grammar: &[u8], base: usize, at: usize) -> Context
    ensures { result ≡ before_from max_text_bytes grammar.now at base started }
{
    let mut here = base;
    let mut seen = start();
    for _tokens in 0..MAX_TEXT_BYTES {
        let terminal = look(grammar, here);
        if at <= terminal.start {
            return seen;
        }
        seen = stepped(seen, terminal.code);
        here = terminal.end;
    }
    seen
}
