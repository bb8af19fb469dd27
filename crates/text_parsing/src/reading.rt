// A cursor over the terminals of a text.
ghost use Rattle.std.specs.Prelude.{◌≡◌, true, false, [], ◌∷◌, ◌<◌, eqb};
ghost use Rattle.text_parsing.specs.Cursors.{first_of, next, fail, left as left_of, ReadsOn};
ghost use Rattle.text_parsing.specs.Terminals.{name_like, begin_like, live};
ghost use Rattle.text_parsing.specs.Symbols.{want as wantOf, paren};

use crate::Cursor;
use crate::terminals::look;
use basis::MAX_NESTING;

pub fn first(text: &[u8]) -> Cursor
    ensures { result ≡ first_of text.now }
{
    let s = look(text, 0);
    Cursor {
        code: s.code,
        start: s.start,
        end: s.end,
        value: s.value,
        nodes: 0,
        terms: 0,
        binders: 0,
        rules: 0,
    }
}

// The next terminal.
pub fn passed(text: &[u8], c: Cursor) -> Cursor
    ensures { result ≡ next text.now c }
{
    let s = look(text, c.end);
    Cursor {
        code: s.code,
        start: s.start,
        end: s.end,
        value: s.value,
        ..c
    }
}

// The terminal cannot stand here.
pub fn failed(c: Cursor) -> Cursor
    ensures { result ≡ fail c }
{
    Cursor { code: 0, ..c }
}

pub fn name(code: usize) -> bool
    ensures { result ≡ name_like code }
{
    code == 1 || (6 <= code && code <= 8)
}

// Whether a calculation begins with it.
pub fn begins(code: usize) -> bool
    ensures { result ≡ begin_like code }
{
    code == 2 || name(code) || code == 45
}

// The terminal of a code.
pub fn want(text: &[u8], c: Cursor, code: usize) -> Cursor
    requires { live code ≡ true }
    ensures { ReadsOn text.now (wantOf code ∷ []) c result × (eqb c.code 0 ≡ false → left_of text.now result < left_of text.now c) }
{
    if c.code == code {
        passed(text, c)
    } else {
        failed(c)
    }
}

// `(` within depth d.
pub fn open(text: &[u8], c: Cursor, d: usize) -> Cursor
    ensures { ReadsOn text.now (paren d ∷ []) c result }
{
    if d < MAX_NESTING {
        want(text, c, 40)
    } else {
        failed(c)
    }
}
