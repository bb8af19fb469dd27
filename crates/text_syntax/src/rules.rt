// Rules, up to the text's end.
ghost use Rattle.std.specs.Prelude.{◌≡◌, true, false, ◌&&◌, List, [], ◌∷◌, ℕ, eqb};
ghost use Rattle.text_parsing.specs.Terminals.{name_like};
ghost use Rattle.text_parsing.specs.Symbols.{rules as rulesOf};
ghost use Rattle.text_parsing.specs.Cursors.{resume};
ghost use Rattle.text_syntax.specs.Rules.{Ends, ReadsRule, form_of, outcome_of};

use crate::expressions::expression;
use text_parsing::Cursor;
use text_parsing::reading::{failed, first, name, passed, want};
use text_parsing::words::close_rule;
use text_store::{NODES_ROOM, RULES_ROOM, TERMS_ROOM};

// The `;` of a rule.
fn rule_end(text: &[u8], c: Cursor, p: usize, i: usize, rules: &mut [usize; RULES_ROOM]) -> Cursor
    ensures { Ends text.now p i c rules.old result rules.new }
{
    if c.code == 59 {
        return passed(text, close_rule(c, p, i, rules));
    }
    failed(c)
}

fn rule(
    text: &[u8],
    c: Cursor,
    nodes: &mut [usize; NODES_ROOM],
    terms: &mut [usize; TERMS_ROOM],
    rules: &mut [usize; RULES_ROOM],
) -> Cursor
    requires { name_like c.code ≡ true }
    ensures { ReadsRule text.now c nodes.old terms.old rules.old result nodes.new terms.new rules.new }
{
    let a = want(text, passed(text, c), 61);
    let b = expression(text, a, 0, nodes, terms);
    rule_end(text, b, c.start, c.nodes, rules)
}

// The text's end, after at least one rule.
fn text_end(c: Cursor, any: bool) -> Cursor
    requires { name_like c.code ≡ false }
    ensures { (xs ns ts rs : List ℕ) → resume xs c ns ts rs (rulesOf any ∷ []) ≡ outcome_of result ns ts rs }
{
    if any && c.code == 5 { c } else { failed(c) }
}

// The rules of a text after its header. Code 0: refusal 4, at the cursor's start.
pub fn read(
    text: &[u8],
    nodes: &mut [usize; NODES_ROOM],
    terms: &mut [usize; TERMS_ROOM],
    rules: &mut [usize; RULES_ROOM],
) -> Cursor
    ensures { form_of text.now nodes.old terms.old rules.old ≡ outcome_of result nodes.new terms.new rules.new }
{
    let mut c = first(text);
    let mut any = false;
    while name(c.code) {
        c = rule(text, c, nodes, terms, rules);
        any = true;
    }
    text_end(c, any)
}
