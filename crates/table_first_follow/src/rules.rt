// What the rule of a node makes of the sets of its parts.
ghost use Rattle.std.specs.Prelude.{◌≡◌, ◌<◌, min, length};
ghost use Rattle.table_first_follow.specs.Sets.{sets_held, family_words};
ghost use Rattle.basis.specs.Limits.{max_rules, max_constructs};
ghost use Rattle.lookahead.specs.Sets.{Has, Is, Repeated};
ghost use Rattle.table_layout.specs.Places.{rule_word as ruleWord};
ghost use Rattle.table_layout.specs.Held.{held, term_words as termWords, allowed, passes_static as passesStatic};
ghost use Rattle.table_first_follow.specs.Rules.{Applied};
ghost use Rattle.table_first_follow.specs.Rounds.{strings};

use crate::parts;
use basis::MAX_CONSTRUCTS;
use lookahead::Set;
use table_layout::{Below, LITERALS_AT, Passes, RULES_AT, TERMS_AT, attributes_of, construct_at};
use term_evaluation::Allowed;
use term_words::TermError;

// The words of the terms.
pub fn term_words(table: &[u32]) -> &[u32]
    ensures { result.now ≡ termWords table.now }
{
    let n = table.len();
    if n < TERMS_AT {
        return &table[n..n];
    }
    if n < LITERALS_AT {
        return &table[TERMS_AT..n];
    }
    &table[TERMS_AT..LITERALS_AT]
}

// The counts that the terms from `start` up to `end` allow; with a variable, all.
fn counted(table: &[u32], start: usize, end: usize) -> Result<Allowed, TermError>
    ensures { allowed result ≡ passesStatic table.now (Passes.Counted start end) }
{
    let words = term_words(table);
    if term_evaluation::variables::has_variable(words, start, end) {
        return Ok(Allowed::From { low: 0 });
    }
    let none = [0i64; 1];
    term_evaluation::counts::count(words, start, end, &none[0..0])
}

fn static_counts(table: &[u32], passes: Passes) -> Result<Allowed, TermError>
    ensures { allowed result ≡ passesStatic table.now passes }
{
    match passes {
        Passes::Optional => Ok(Allowed::Within { low: 0, more: 1 }),
        Passes::Any => Ok(Allowed::From { low: 0 }),
        Passes::Some => Ok(Allowed::From { low: 1 }),
        Passes::Counted { start, end } => counted(table, start, end),
    }
}

// More than 8 passes have the strings of 8.
fn capped(k: u64) -> usize
    ensures { result ≡ min k 8 }
{
    if k < 8 { k as usize } else { 8 }
}

fn repeated(body: Set, counts: Result<Allowed, TermError>) -> Set
    ensures { Is result.words (Repeated (Has body.words) (allowed counts)) }
{
    let Ok(allowed) = counts else {
        return lookahead::empty();
    };
    match allowed {
        Allowed::None => lookahead::empty(),
        Allowed::From { low } => lookahead::passes::at_least(body, low as usize),
        Allowed::Within { low, more } => {
            let least = capped(low);
            let most = capped((least + capped(more)) as u64);
            lookahead::passes::within(body, least, most)
        }
    }
}

// The construct that is a rule's body.
pub fn body_of(table: &[u32], rule: usize) -> usize
    requires { rule < max_rules }
    ensures { result ≡ ruleWord table.now rule 0 }
{
    table_layout::word(table, RULES_AT + 4 * rule)
}

fn inside(table: &[u32], family: &[u64], i: usize) -> Set
    requires { (length family.now ≡ family_words) × (i < max_constructs) }
    ensures { Is result.words (Applied (strings family.now) ((held table.now).node i)) }
{
    let attributes = attributes_of(construct_at(table, i));
    let end = i + attributes.size;
    let rule = attributes.rule;
    let below = attributes.below;
    match below {
        Below::Nothing => lookahead::empty(),
        Below::Branches => parts::gather(table, family, i + 1, end, false),
        Below::Members => parts::gather(table, family, i + 1, end, true),
        Below::Body { passes } => {
            repeated(parts::set_of(family, i + 1), static_counts(table, passes))
        }
        Below::Cases => parts::gather(table, family, i + 1, end, false),
        Below::Rule => parts::set_of(family, body_of(table, rule)),
    }
}

// What the rule of construct i, or of the opening use, makes of the family's sets.
pub fn applied(table: &[u32], family: &[u64], i: usize) -> Set
    requires { (length family.now ≡ family_words) × (i < sets_held) }
    ensures { Is result.words (Applied (strings family.now) ((held table.now).node i)) }
{
    if i < MAX_CONSTRUCTS {
        return inside(table, family, i);
    }
    parts::set_of(family, body_of(table, 0))
}
