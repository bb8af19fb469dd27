// A part of a grammar, quoted: its tokens, at most 60 bytes. What stands between two of them, comments too, is one blank.
ghost use Rattle.std.specs.Prelude.{◌≡◌, cond, ◌-◌, ltb};
ghost use Rattle.basis.specs.Limits.{max_text_bytes};
ghost use Rattle.report_quoting.specs.Parts.{is_never, ends_whole, ends_branch, ends_member, is_mark, ends_at, ends as endsOf, part_end};

use basis::MAX_TEXT_BYTES;
use report_wording::lines::cut;
use report_wording::walking::nesting;
use report_wording::writing::{Style, bytes, say};
use std::io::Stdout;
use text_parsing::terminals::look;

// What the part is. A whole expression ends before `;` or a closing bracket, a branch also before `|`, a member also before `&`, a
// field also before a repetition mark.
#[derive(Clone, Copy)]
pub enum Part {
    Whole,
    Branch,
    Member,
    Field,
}

// The text's end, and a token that can stand nowhere.
#[tactic(auto, unfolding(crate::specs::Parts::is_never))]
fn never(code: usize) -> bool
    ensures { result ≡ is_never code }
{
    code == 4 || code == 5
}

// ; ) ]
#[tactic(auto, unfolding(crate::specs::Parts::ends_whole))]
fn whole(code: usize) -> bool
    ensures { result ≡ ends_whole code }
{
    code == 59 || code == 41 || code == 93
}

#[tactic(auto, unfolding(crate::specs::Parts::ends_branch))]
fn branch(code: usize) -> bool
    ensures { result ≡ ends_branch code }
{
    code == 124 || whole(code)
}

#[tactic(auto, unfolding(crate::specs::Parts::ends_member))]
fn member(code: usize) -> bool
    ensures { result ≡ ends_member code }
{
    code == 38 || branch(code)
}

// ? * + {
#[tactic(auto, unfolding(crate::specs::Parts::is_mark))]
pub fn mark(code: usize) -> bool
    ensures { result ≡ is_mark code }
{
    code == 63 || code == 42 || code == 43 || code == 123
}

fn ends_at(part: Part, code: usize) -> bool
    ensures { result ≡ ends_at part code }
{
    match part {
        Part::Whole => whole(code),
        Part::Branch => branch(code),
        Part::Member => member(code),
        Part::Field => mark(code) || member(code),
    }
}

fn ends(part: Part, code: usize, depth: usize) -> bool
    ensures { result ≡ endsOf part code depth }
{
    never(code) || depth == 0 && ends_at(part, code)
}

// Not in front of the dots of a cut.
fn blank(out: Stdout, room: usize) {
    if 1 < room {
        say(out, b" ");
    }
}

// The blank between two tokens, and the room after it.
fn gap(out: Stdout, here: usize, start: usize, room: usize) -> usize
    ensures { result ≡ cond (ltb here start) (room - 1) room }
{
    if here < start {
        blank(out, room);
        room.saturating_sub(1)
    } else {
        room
    }
}

// The bytes up to a place, as far as there is room for them; whether some are left out.
fn cut_off(out: Stdout, grammar: &[u8], start: usize, end: usize, room: usize) -> bool
    ensures { result ≡ ltb room (end - start) }
{
    let to = cut(start, end, room);
    bytes(out, Style::Line, grammar, start, to);
    let is_cut = room < end.saturating_sub(start);
    if is_cut {
        say(out, b" ...");
    }
    is_cut
}

pub fn quote(out: Stdout, grammar: &[u8], at: usize, part: Part) {
    let mut here = at;
    let mut depth = 0;
    let mut room = 60;
    for _tokens in 0..61 {
        let terminal = look(grammar, here);
        if ends(part, terminal.code, depth) {
            return;
        }
        room = gap(out, here, terminal.start, room);
        if cut_off(out, grammar, terminal.start, terminal.end, room) {
            return;
        }
        room = room.saturating_sub(terminal.end.saturating_sub(terminal.start));
        depth = nesting(terminal.code, depth);
        here = terminal.end;
    }
}

// Where a part ends: the place after its last token.
pub fn end_of(grammar: &[u8], at: usize, part: Part) -> usize
    ensures { result ≡ part_end max_text_bytes grammar.now part at 0 }
{
    let mut here = at;
    let mut depth = 0;
    for _tokens in 0..MAX_TEXT_BYTES {
        let terminal = look(grammar, here);
        if ends(part, terminal.code, depth) {
            return here;
        }
        depth = nesting(terminal.code, depth);
        here = terminal.end;
    }
    here
}

// The token at a place.
pub fn token(out: Stdout, grammar: &[u8], at: usize) {
    cut_off(out, grammar, at, look(grammar, at).end, 60);
}
