// What is still to come and what is left of the window, and what is listed on the way.
use crate::strings::{head, tail};
use lookahead::Set;
use report_measures::words::{put_number, put_set, set_at};

// An entry below 256 is a construct, one from 256 on what comes after a construct, one from 512 on the passes of a repetition past the eighth.
// `whole`: the frame ends after the target.
#[derive(Clone, Copy)]
pub struct Chain {
    pub depth: usize,
    pub target: usize,
    pub whole: bool,
    pub count: usize,
    pub open: bool,
}

// What is listed, each with a construct and a value.
#[derive(Clone, Copy)]
pub enum Tag {
    // A field and the bits of the window that it has.
    Field,
    // The use of a rule.
    Enters,
    // A repetition and how often its body comes.
    Repeats,
    Ends,
    // The use of the rule that ends here, after which the next comes.
    Leaves,
    // A repetition and how many more passes of it.
    GoesOn,
    FrameEnd,
    // A switch that takes nothing.
    PassesOver,
    // What a report does not print is listed too: an alternative or a switch, of which the next is a part; a concatenation.
    Branch,
    Members,
    // And what ends here: a member, a branch or a case, the last pass of a body.
    MemberEnd,
    BranchEnd,
    LastPass,
}

// The number that is listed for it.
fn number(tag: Tag) -> usize {
    match tag {
        Tag::Field => 1,
        Tag::Enters => 2,
        Tag::Repeats => 3,
        Tag::Ends => 4,
        Tag::Leaves => 5,
        Tag::GoesOn => 6,
        Tag::FrameEnd => 7,
        Tag::PassesOver => 8,
        Tag::Branch => 9,
        Tag::Members => 10,
        Tag::MemberEnd => 11,
        Tag::BranchEnd => 12,
        Tag::LastPass => 13,
    }
}

pub fn closed(chain: Chain) -> Chain {
    Chain {
        open: false,
        ..chain
    }
}

// Three numbers each.
pub fn noted(steps: &mut [usize], chain: Chain, tag: Tag, construct: usize, value: usize) -> Chain {
    let count = chain.count;
    if 1024 <= count {
        return closed(chain);
    }
    put_number(steps, 3 * count, number(tag));
    put_number(steps, 3 * count + 1, construct);
    put_number(steps, 3 * count + 2, value);
    Chain {
        count: count + 1,
        ..chain
    }
}

// The strings of the topmost of `depth` entries; of none the empty string.
pub fn strings_of(sets: &[u64], depth: usize) -> Set {
    if depth == 0 {
        return lookahead::single(1);
    }
    set_at(sets, depth - 1)
}

pub fn push(items: &mut [usize], sets: &mut [u64], chain: Chain, item: usize, set: Set) -> Chain {
    let depth = chain.depth;
    let all = lookahead::join(set, strings_of(sets, depth));
    put_number(items, depth, item);
    put_set(sets, depth, all);
    if 511 < depth {
        return closed(chain);
    }
    Chain {
        depth: depth + 1,
        ..chain
    }
}

pub fn popped(chain: Chain) -> Chain {
    Chain {
        depth: chain.depth.saturating_sub(1),
        ..chain
    }
}

// What is left after a field of `width` bits. A window of 8 bits is done where none are left.
fn spelt(chain: Chain, width: usize) -> Chain {
    let target = tail(chain.target, width);
    Chain {
        target,
        open: chain.whole || 1 < target,
        ..chain
    }
}

pub fn field(steps: &mut [usize], chain: Chain, i: usize, width: usize) -> Chain {
    let part = head(chain.target, width);
    spelt(noted(steps, chain, Tag::Field, i, part), width)
}
