// Refusals 9, 10 and 13 over a table's words: repeated bodies that may be empty, conflicts (01's clashes) with their least window, and uints without a value left.
#![tactic(auto)]

ghost use Rattle.std.specs.Prelude.{◌≡◌, ◌+◌, ◌-◌, ◌≤◌, ◌<◌, length};
ghost use Rattle.table_first_follow.specs.Sets.{family_words};
ghost use Rattle.basis.specs.Limits.{max_constructs, table_words};
ghost use Rattle.table_layout.specs.Constructs.{construct_at};
ghost use Rattle.table_layout.specs.Held.{is_exact, passes_fixed};
ghost use Rattle.term_evaluation.specs.Counts.{form_of};
ghost use Rattle.lookahead.specs.Sets.{Decides};
ghost use Rattle.table_first_follow.specs.Rounds.{strings};
ghost use Rattle.table_first_follow.specs.Parts.{siblings};
ghost use Rattle.table_conflicts.specs.Clashes.{Branching, Turning, Repeating, ClashBelow, ClashOf, EmptyBelow, EmptyAt, NoValueIn, NoValueAt};

use table_first_follow::parts::set_of;
use table_layout::{Below, OwnList, Passes, attributes_of, construct_at};
use table_wellformed::lists::term_words;
use term_words::Term;
use term_words::decode::term_at;

mod windows;

// A conflict of one construct, with the number of its least window: two branches of an alternative, or continue and exit of a repetition.
#[derive(Clone, Copy)]
pub enum Clash {
    None,
    Branches {
        window: usize,
        first: usize,
        second: usize,
    },
    Passes {
        window: usize,
    },
}

// Whether counts with this last term are written `{n}`.
fn exact(last: Term) -> bool
    ensures { result ≡ is_exact (form_of last) }
{
    match last {
        Term::Range => false,
        Term::From => false,
        Term::UpTo => false,
        Term::Part(_) => true,
        Term::Single(_) => true,
        Term::All => true,
        Term::Or => true,
        Term::Except => true,
        Term::And => true,
        Term::Compare(_) => true,
        Term::Bad => true,
    }
}

fn before(end: usize) -> usize
    ensures { result ≡ end - 1 }
{
    if 0 < end {
        return end - 1;
    }
    0
}

// Whether a repetition is written `{n}`.
fn fixed(table: &[u32], passes: Passes) -> bool
    requires { table_words ≤ length table.now }
    ensures { result ≡ passes_fixed table.now passes }
{
    match passes {
        Passes::Optional => false,
        Passes::Any => false,
        Passes::Some => false,
        Passes::Counted { start: _, end } => exact(term_at(term_words(table), before(end))),
    }
}

// The parts from `start` up to `end` are an alternative's branches.
fn branches(table: &[u32], prediction: &[u64], start: usize, end: usize) -> Clash
    requires { (length prediction.now ≡ family_words) × (end ≤ max_constructs) }
    ensures { Branching (strings prediction.now) (siblings table.now start end) result }
{
    let window = windows::least_shared(table, prediction, start, end);
    if window == 0 {
        return Clash::None;
    }
    let first = windows::holder(table, prediction, start, end, 0, window);
    let second = windows::holder(table, prediction, start, end, first + 1, window);
    Clash::Branches {
        window,
        first,
        second,
    }
}

// A repetition continues by its body's prediction set, and exits by its FOLLOW set.
fn turns(follow: &[u64], prediction: &[u64], i: usize) -> Clash
    requires { (length follow.now ≡ family_words) × (length prediction.now ≡ family_words) × (i < max_constructs) }
    ensures { Turning (strings prediction.now (i + 1)) (strings follow.now i) result }
{
    let window = windows::shared(set_of(prediction, i + 1), set_of(follow, i));
    if window == 0 {
        return Clash::None;
    }
    Clash::Passes { window }
}

fn unfixed(follow: &[u64], prediction: &[u64], i: usize, fixed: bool) -> Clash
    requires { (length follow.now ≡ family_words) × (length prediction.now ≡ family_words) × (i < max_constructs) }
    ensures { Repeating fixed (strings prediction.now (i + 1)) (strings follow.now i) result }
{
    if fixed {
        return Clash::None;
    }
    turns(follow, prediction, i)
}

fn clash_of(
    table: &[u32],
    follow: &[u64],
    prediction: &[u64],
    i: usize,
    size: usize,
    below: Below,
) -> Clash
    requires { (16384 ≤ length table.now) × (length follow.now ≡ 2056) × (length prediction.now ≡ 2056) × (i < 256) × (i + size ≤ 256) }
    ensures { ClashBelow table.now (strings follow.now) (strings prediction.now) i size below result }
{
    match below {
        Below::Nothing => Clash::None,
        Below::Branches => branches(table, prediction, i + 1, i + size),
        Below::Members => Clash::None,
        Below::Body { passes } => unfixed(follow, prediction, i, fixed(table, passes)),
        Below::Cases => Clash::None,
        Below::Rule => Clash::None,
    }
}

// The conflict of construct i, if it has one.
pub fn conflict(table: &[u32], follow: &[u64], prediction: &[u64], i: usize) -> Clash
    requires { (table_words ≤ length table.now) × (length follow.now ≡ family_words) × (length prediction.now ≡ family_words) × (i < max_constructs) }
    ensures { ClashOf table.now (strings follow.now) (strings prediction.now) i (construct_at table.now i) result }
{
    let attributes = attributes_of(construct_at(table, i));
    let size = attributes.size;
    let below = attributes.below;
    clash_of(table, follow, prediction, i, size, below)
}

fn may_be_empty(first: &[u64], i: usize, below: Below) -> bool
    requires { (length first.now ≡ 2056) × (i < 256) }
    ensures { Decides result (EmptyBelow (strings first.now) i below) }
{
    match below {
        Below::Nothing => false,
        Below::Branches => false,
        Below::Members => false,
        Below::Body { passes: _ } => lookahead::has_empty_string(set_of(first, i + 1)),
        Below::Cases => false,
        Below::Rule => false,
    }
}

// Whether construct i is a repetition whose body may be empty (01's empty first window).
pub fn empty_body(table: &[u32], first: &[u64], i: usize) -> bool
    requires { (length first.now ≡ family_words) × (i < max_constructs) }
    ensures { Decides result (EmptyAt (strings first.now) i (construct_at table.now i)) }
{
    let attributes = attributes_of(construct_at(table, i));
    let below = attributes.below;
    may_be_empty(first, i, below)
}

// A uint or sint has no value left exactly where no window begins with one.
fn none_left(first: &[u64], i: usize, own: OwnList) -> bool
    requires { length first.now ≡ family_words }
    ensures { Decides result (NoValueIn (strings first.now) i own) }
{
    match own {
        OwnList::None => false,
        OwnList::Counts { start: _, end: _ } => false,
        OwnList::Set { start: _, end: _ } => lookahead::is_empty(set_of(first, i)),
    }
}

// Whether construct i is a uint or sint whose set has no variable and no value left.
pub fn no_value(table: &[u32], first: &[u64], i: usize) -> bool
    requires { length first.now ≡ family_words }
    ensures { Decides result (NoValueAt (strings first.now) i (construct_at table.now i)) }
{
    let attributes = attributes_of(construct_at(table, i));
    let own = attributes.own;
    none_left(first, i, own)
}
