// The table's words of a text whose form, limits and names are right, whether or not it is refused later.
ghost use Rattle.std.specs.Prelude.{◌≡◌, ℕ, ◌≤◌, length, drop};
ghost use Rattle.basis.specs.Limits.{max_text_bytes};
ghost use Rattle.text_parsing.specs.Cursors.{state_at};
ghost use Rattle.text_admission.specs.Admitted.{words_of, Right, Named};
ghost use Rattle.report_tables.specs.Tables.{Untouched, Encoding, TextEncoding};

use basis::MAX_TEXT_BYTES;
use text_header::Heading;
use text_parsing::Cursor;
use text_store::{NODES_ROOM, RULES_ROOM, TERMS_ROOM};

fn encode_named(
    text: &[u8],
    nodes: &[usize],
    terms: &[usize],
    rules: &[usize],
    c: Cursor,
    words: &mut [u32],
)
    requires { Named text.now (state_at c nodes.now terms.now rules.now) × (length text.now ≤ max_text_bytes) × Untouched words.old }
    ensures { words.new ≡ words_of text.now (state_at c nodes.now terms.now rules.now) }
{
    text_encoding::areas::encode(text, nodes, terms, rules, c.nodes, c.rules, words);
}

fn encode_checked(
    text: &[u8],
    nodes: &[usize],
    terms: &[usize],
    rules: &[usize],
    c: Cursor,
    words: &mut [u32],
) -> bool
    requires { Right text.now (state_at c nodes.now terms.now rules.now) × (length text.now ≤ max_text_bytes) × Untouched words.old }
    ensures { Encoding text.now words.new result }
{
    let past = text_names::limits::first_past(rules, c.rules);
    if past < 18446744073709551615 {
        return false;
    }
    let wrong = text_names::places::first_fault(text, nodes, terms, rules, c.rules);
    if wrong < 18446744073709551615 {
        return false;
    }
    encode_named(text, nodes, terms, rules, c, words);
    true
}

fn encode_rules(text: &[u8], words: &mut [u32]) -> bool
    requires { (length text.now ≤ max_text_bytes) × Untouched words.old }
    ensures { Encoding text.now words.new result }
{
    let mut nodes = [0usize; NODES_ROOM];
    let mut terms = [0usize; TERMS_ROOM];
    let mut rules = [0usize; RULES_ROOM];
    let c = text_syntax::rules::read(text, &mut nodes, &mut terms, &mut rules);
    if c.code == 0 {
        return false;
    }
    encode_checked(text, &nodes, &terms, &rules, c, words)
}

fn encode_from(text: &[u8], base: usize, words: &mut [u32]) -> bool
    requires { (base ≤ length text.now) × (length text.now ≤ max_text_bytes) × Untouched words.old }
    ensures { Encoding (drop base text.now) words.new result }
{
    encode_rules(&text[base..], words)
}

// Writes the words over zeros; answers whether there are such, and writes nothing where there are none.
pub fn encode(text: &[u8], words: &mut [u32]) -> bool
    requires { Untouched words.old }
    ensures { TextEncoding text.now words.new result }
{
    if MAX_TEXT_BYTES < text.len() {
        return false;
    }
    match text_header::header::header(text) {
        Heading::Wrong(_) => false,
        Heading::Rules(base) => encode_from(text, base, words),
    }
}
