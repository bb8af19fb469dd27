// The words of a table (docs/TABLE.md): where things stand, and what they say. Any words may arrive.
#![tactic(auto)]

ghost use Rattle.std.specs.Prelude.{◌≡◌, false, ◌&&◌, ℕ, ◌+◌, ◌*◌, ◌<◌, leb, length};
ghost use Rattle.basis.specs.Limits.{max_constructs, max_variables};
ghost use Rattle.table_layout.specs.Attributes.{counts_list, row as row_of, attributes_of};
ghost use Rattle.table_layout.specs.Held.{size_of};
ghost use Rattle.table_layout.specs.Places.{word as word_at};
ghost use Rattle.table_layout.specs.Constructs.{branches as branchesOf, listed as listed_of, repetition_of, inner_of, widest_for, uint_of, literal_of, range_of, leaf_of, without_parts, construct_of, construct_at};

use basis::{
    MAX_BOUND_WIDTH, MAX_CONSTRUCTS, MAX_LITERAL_BYTES, MAX_RULES, MAX_TERMS, MAX_VARIABLES,
    MAX_WIDTH,
};

// Where rules, variables, constructs, terms, bytes of literals and sets begin.
pub const RULES_AT: usize = 64;

pub const VARIABLES_AT: usize = RULES_AT + 4 * MAX_RULES;

pub const CONSTRUCTS_AT: usize = VARIABLES_AT + 4 * MAX_VARIABLES;

pub const TERMS_AT: usize = CONSTRUCTS_AT + 8 * MAX_CONSTRUCTS;

pub const LITERALS_AT: usize = TERMS_AT + 3 * MAX_TERMS;

pub const SETS_AT: usize = LITERALS_AT + 8 * MAX_CONSTRUCTS;

// The opening use of the start rule has the first number past all constructs.
pub const OPENING: usize = MAX_CONSTRUCTS;

// How often a repetition's body is passed: `?`, `*`, `+`, or the counts of the terms from `start` up to `end`.
#[derive(Clone, Copy)]
pub enum Passes {
    Optional,
    Any,
    Some,
    Counted { start: usize, end: usize },
}

// A construct as its words have it. `size` counts the construct and all below it.
#[derive(Clone, Copy)]
pub enum Construct {
    Missing,
    Alternative {
        size: usize,
    },
    Concatenation {
        size: usize,
    },
    Repetition {
        size: usize,
        passes: Passes,
    },
    Switch {
        size: usize,
    },
    Use {
        rule: usize,
    },
    Literal {
        length: usize,
    },
    Range {
        low: usize,
        high: usize,
    },
    // A sint where it is signed.
    Uint {
        signed: bool,
        width: usize,
        start: usize,
        end: usize,
        binder: usize,
    },
    Eod,
}

// What stands below a construct: nothing, the branches of an alternative, the members of a concatenation, the body of a repetition, the
// cases of a switch, or the rule that it uses.
#[derive(Clone, Copy)]
pub enum Below {
    Nothing,
    Branches,
    Members,
    Body { passes: Passes },
    Cases,
    Rule,
}

// A construct's own list of terms: none, the counts of `{…}`, or the set of a uint.
#[derive(Clone, Copy)]
pub enum OwnList {
    None,
    Counts { start: usize, end: usize },
    Set { start: usize, end: usize },
}

// What all layers ask of a construct. `rule` is 64 where it uses none; `length` is that of a literal, `width` and `binder` those of a
// uint or sint, 0 elsewhere; a sint is `signed`.
#[derive(Clone, Copy)]
pub struct Attributes {
    pub size: usize,
    pub below: Below,
    pub own: OwnList,
    pub rule: usize,
    pub length: usize,
    pub width: usize,
    pub binder: usize,
    pub signed: bool,
}

fn wide(x: u32) -> usize
    ensures { (result ≡ x) × (result < 4294967296) }
{
    x as usize
}

// A word of the table; past its end there is none, read as 0.
pub fn word(table: &[u32], k: usize) -> usize
    ensures { (result ≡ word_at table.now k) × (result < 4294967296) }
{
    if k < table.len() {
        return wide(table[k]);
    }
    0
}

// A construct with parts leaves them within the limit.
pub fn branches(i: usize, size: usize) -> bool
    requires { i < max_constructs }
    ensures { result ≡ branchesOf i size }
{
    if size < 2 || MAX_CONSTRUCTS < size {
        return false;
    }
    i + size <= MAX_CONSTRUCTS
}

// Terms from and up to.
pub fn listed(start: usize, end: usize) -> bool
    ensures { result ≡ listed_of start end }
{
    start <= end && end <= MAX_TERMS
}

fn repetition(size: usize, how: usize, start: usize, end: usize) -> Construct
    ensures { result ≡ repetition_of size how start end }
{
    let passes = match how {
        1 => Passes::Optional,
        2 => Passes::Any,
        3 => Passes::Some,
        4 if listed(start, end) => Passes::Counted { start, end },
        _ => return Construct::Missing,
    };
    Construct::Repetition { size, passes }
}

fn inner(kind: usize, size: usize, a: usize, b: usize, c: usize) -> Construct
    ensures { result ≡ inner_of kind size a b c }
{
    match kind {
        1 => Construct::Alternative { size },
        2 => Construct::Concatenation { size },
        3 => repetition(size, a, b, c),
        _ => Construct::Switch { size },
    }
}

// How wide what binds a variable, or none, may be.
fn widest_for(binder: usize) -> usize
    ensures { result ≡ widest_for binder }
{
    if 0 < binder {
        return MAX_BOUND_WIDTH;
    }
    MAX_WIDTH
}

fn uint(signed: bool, width: usize, start: usize, end: usize, binder: usize) -> Construct
    ensures { result ≡ uint_of signed width start end binder }
{
    if uint_fits(width, start, end, binder) {
        Construct::Uint {
            signed,
            width,
            start,
            end,
            binder,
        }
    } else {
        Construct::Missing
    }
}

fn literal(length: usize) -> Construct
    ensures { result ≡ literal_of length }
{
    if 1 <= length && length <= MAX_LITERAL_BYTES {
        Construct::Literal { length }
    } else {
        Construct::Missing
    }
}

fn range(low: usize, high: usize) -> Construct
    ensures { result ≡ range_of low high }
{
    if low < 128 && high < 128 {
        Construct::Range { low, high }
    } else {
        Construct::Missing
    }
}

fn leaf(kind: usize, a: usize, b: usize, c: usize, d: usize) -> Construct
    ensures { result ≡ leaf_of kind a b c d }
{
    match kind {
        5 if a < MAX_RULES => Construct::Use { rule: a },
        6 => literal(a),
        7 => range(a, b),
        8 => uint(false, a, b, c, d),
        9 => Construct::Eod,
        12 => uint(true, a, b, c, d),
        _ => Construct::Missing,
    }
}

#[tactic(auto, unfolding(crate::specs::Constructs::construct_of))]
fn decoded(i: usize, kind: usize, size: usize, a: usize, b: usize, c: usize, d: usize) -> Construct
    requires { i < max_constructs }
    ensures { result ≡ construct_of i kind size a b c d }
{
    if kind < 1 || 4 < kind {
        return without_parts(kind, size, a, b, c, d);
    }
    if branches(i, size) {
        return inner(kind, size, a, b, c);
    }
    Construct::Missing
}

fn without_parts(kind: usize, size: usize, a: usize, b: usize, c: usize, d: usize) -> Construct
    ensures { result ≡ without_parts kind size a b c d }
{
    if size == 1 {
        return leaf(kind, a, b, c, d);
    }
    Construct::Missing
}

// Construct i.
pub fn construct_at(table: &[u32], i: usize) -> Construct
    ensures { result ≡ construct_at table.now i }
{
    if MAX_CONSTRUCTS <= i {
        return Construct::Missing;
    }
    let at = CONSTRUCTS_AT + 8 * i;
    decoded(
        i,
        word(table, at),
        word(table, at + 1),
        word(table, at + 2),
        word(table, at + 3),
        word(table, at + 4),
        word(table, at + 5),
    )
}

// The terms that a repetition has.
fn counts_list(passes: Passes) -> OwnList
    ensures { result ≡ counts_list passes }
{
    match passes {
        Passes::Counted { start, end } => OwnList::Counts { start, end },
        _ => OwnList::None,
    }
}

fn row(
    size: usize,
    below: Below,
    own: OwnList,
    rule: usize,
    length: usize,
    width: usize,
    binder: usize,
    signed: bool,
) -> Attributes
    ensures { result ≡ row_of size below own rule length width binder signed }
{
    Attributes {
        size,
        below,
        own,
        rule,
        length,
        width,
        binder,
        signed,
    }
}

// What a construct's kind and operands say to those who ask for no more than that.
pub fn attributes_of(construct: Construct) -> Attributes
    ensures { result ≡ attributes_of construct }
{
    match construct {
        Construct::Missing => row(0, Below::Nothing, OwnList::None, 64, 0, 0, 0, false),
        Construct::Alternative { size } => row(
            size,
            Below::Branches,
            OwnList::None,
            64,
            0,
            0,
            0,
            false,
        ),
        Construct::Concatenation { size } => row(
            size,
            Below::Members,
            OwnList::None,
            64,
            0,
            0,
            0,
            false,
        ),
        Construct::Repetition { size, passes } => {
            row(
                size,
                Below::Body { passes },
                counts_list(passes),
                64,
                0,
                0,
                0,
                false,
            )
        }
        Construct::Switch { size } => row(size, Below::Cases, OwnList::None, 64, 0, 0, 0, false),
        Construct::Use { rule } => row(1, Below::Rule, OwnList::None, rule, 0, 0, 0, false),
        Construct::Literal { length } => row(
            1,
            Below::Nothing,
            OwnList::None,
            64,
            length,
            0,
            0,
            false,
        ),
        Construct::Range { .. } => row(1, Below::Nothing, OwnList::None, 64, 0, 0, 0, false),
        Construct::Uint {
            signed,
            width,
            start,
            end,
            binder,
        } => row(
            1,
            Below::Nothing,
            OwnList::Set { start, end },
            64,
            0,
            width,
            binder,
            signed,
        ),
        Construct::Eod => row(1, Below::Nothing, OwnList::None, 64, 0, 0, 0, false),
    }
}

// How many constructs a construct is; a missing one is none.
pub fn size_of(construct: Construct) -> usize
    ensures { result ≡ size_of construct }
{
    attributes_of(construct).size
}

// The sizes of what words say, without the constructs themselves: the same tests.

fn repetition_size(size: usize, how: usize, start: usize, end: usize) -> usize
    ensures { result ≡ size_of (repetition_of size how start end) }
{
    match how {
        1 | 2 | 3 => size,
        4 if listed(start, end) => size,
        _ => 0,
    }
}

fn inner_size(kind: usize, size: usize, a: usize, b: usize, c: usize) -> usize
    ensures { result ≡ size_of (inner_of kind size a b c) }
{
    if kind == 3 {
        return repetition_size(size, a, b, c);
    }
    size
}

// A uint's or a sint's operands are within their limits.
pub fn uint_fits(width: usize, start: usize, end: usize, binder: usize) -> bool
    ensures { result ≡ ((leb 1 width && leb width (widest_for binder)) && (listed_of start end && leb binder max_variables)) }
{
    1 <= width && width <= widest_for(binder) && listed(start, end) && binder <= MAX_VARIABLES
}

// A sint's is the same.
fn uint_size(width: usize, start: usize, end: usize, binder: usize) -> usize
    ensures { result ≡ size_of (uint_of false width start end binder) }
{
    if uint_fits(width, start, end, binder) {
        1
    } else {
        0
    }
}

fn literal_size(length: usize) -> usize
    ensures { result ≡ size_of (literal_of length) }
{
    if 1 <= length && length <= MAX_LITERAL_BYTES {
        1
    } else {
        0
    }
}

fn range_size(low: usize, high: usize) -> usize
    ensures { result ≡ size_of (range_of low high) }
{
    if low < 128 && high < 128 { 1 } else { 0 }
}

// Fields and uses are what most parts are.
fn leaf_size(kind: usize, a: usize, b: usize, c: usize, d: usize) -> usize
    ensures { result ≡ size_of (leaf_of kind a b c d) }
{
    if kind == 8 {
        return uint_size(a, b, c, d);
    }
    match kind {
        5 if a < MAX_RULES => 1,
        6 => literal_size(a),
        7 => range_size(a, b),
        9 => 1,
        12 => uint_size(a, b, c, d),
        _ => 0,
    }
}

fn decoded_size(i: usize, kind: usize, size: usize, a: usize, b: usize, c: usize, d: usize) -> usize
    requires { i < max_constructs }
    ensures { result ≡ size_of (construct_of i kind size a b c d) }
{
    if 4 < kind {
        if size == 1 {
            return leaf_size(kind, a, b, c, d);
        }
        return 0;
    }
    if kind < 1 {
        return 0;
    }
    if branches(i, size) {
        return inner_size(kind, size, a, b, c);
    }
    0
}

// A word that the table has.
pub fn word_within(table: &[u32], k: usize) -> usize
    requires { k < length table.now }
    ensures { (result ≡ word_at table.now k) × (result < 4294967296) }
{
    wide(table[k])
}

// How many constructs construct i is, a missing one none: one test for all six words, which stand side by side.
pub fn size_at(table: &[u32], i: usize) -> usize
    ensures { result ≡ size_of (construct_at table.now i) }
{
    if MAX_CONSTRUCTS <= i {
        return 0;
    }
    let at = CONSTRUCTS_AT + 8 * i;
    if at + 5 < table.len() {
        return decoded_size(
            i,
            word_within(table, at),
            word_within(table, at + 1),
            word_within(table, at + 2),
            word_within(table, at + 3),
            word_within(table, at + 4),
            word_within(table, at + 5),
        );
    }
    size_of(construct_at(table, i))
}
