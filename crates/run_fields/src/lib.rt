// A field of a reading: its construct, its first bit, its width and its value. Any table, frame and reading may arrive.
#![tactic(auto)]

ghost use Rattle.std.specs.Prelude.{◌≡◌, ◌+◌, ◌*◌, ◌^◌, ◌≤◌, ◌<◌, length};
ghost use Rattle.basis.specs.Limits.{max_frame_bytes};
ghost use Rattle.basis.specs.Bits.{bits_of};
ghost use Rattle.basis.specs.Patterns.{pattern_value};
ghost use Rattle.table_layout.specs.Constructs.{construct_at};
ghost use Rattle.run_fields.specs.Fields.{field_width, field_signed, in_64_bits, field_value, field_in, field_at, field_of};

use basis::{MAX_FRAME_BYTES, MAX_WIDTH, TABLE_WORDS};
use table_layout::Construct;
use term_evaluation::patterns::offset_of;

// What two words of a reading name.
#[derive(Clone, Copy)]
pub enum Answer {
    // The frame is longer than any that a run is opened for.
    LongFrame,
    // The reading ends before them.
    NoWords,
    // The table is too short, or its construct of that number is no field.
    NoField,
    // Not all of the field's bits lie in the frame.
    Outside,
    // The value of a sint is in two's complement of 64 bits; of more than 64 bits it is 0.
    Found {
        construct: usize,
        first: usize,
        width: usize,
        value: usize,
    },
}

// How many bits a field has; what is no field has none.
fn width_of(construct: Construct) -> usize
    requires { field_width construct ≤ 256 }
    ensures { result ≡ field_width construct }
{
    match construct {
        Construct::Literal { length } => 8 * length,
        Construct::Range { .. } => 8,
        Construct::Uint { width, .. } => width,
        _ => 0,
    }
}

// How many bits construct i has as a field.
fn width_at(table: &[u32], i: usize) -> usize
    ensures { (result ≡ field_width (construct_at table.now i)) × (result ≤ 256) }
{
    width_of(table_layout::construct_at(table, i))
}

// Whether construct i is a sint.
fn signed_at(table: &[u32], i: usize) -> bool
    ensures { result ≡ field_signed (construct_at table.now i) }
{
    table_layout::attributes_of(table_layout::construct_at(table, i)).signed
}

// The value of w bits in 64 bits.
fn extended(pattern: u64, w: usize, signed: bool) -> u64
    requires { (w ≤ 64) × (pattern < 2 ^ w) }
    ensures { result ≡ in_64_bits (pattern_value signed (bits_of w pattern)) }
{
    let half = offset_of(w as u32, signed);
    if pattern < half {
        return pattern;
    }
    if 0 < half {
        return 18446744073709551615 - (half - 1 - (pattern - half));
    }
    pattern
}

fn value_at(frame: &[u8], signed: bool, p: usize, w: usize) -> usize
    requires { (p + w ≤ 8 * length frame.now) × (length frame.now ≤ max_frame_bytes) }
    ensures { result ≡ field_value frame.now signed p w }
{
    if w <= MAX_WIDTH {
        let pattern = run_frame::bits(frame, p, w);
        return extended(pattern, w, signed) as usize;
    }
    0
}

// The field of construct i, with w bits from bit p on.
fn in_frame(frame: &[u8], signed: bool, i: usize, p: usize, w: usize) -> Answer
    requires { (p < 4294967296) × (w ≤ 256) × (length frame.now ≤ max_frame_bytes) }
    ensures { result ≡ field_in frame.now signed i p w }
{
    if w == 0 {
        return Answer::NoField;
    }
    if p + w <= 8 * frame.len() {
        return Answer::Found {
            construct: i,
            first: p,
            width: w,
            value: value_at(frame, signed, p, w),
        };
    }
    Answer::Outside
}

fn at(table: &[u32], frame: &[u8], i: usize, p: usize) -> Answer
    requires { (p < 4294967296) × (length frame.now ≤ max_frame_bytes) }
    ensures { result ≡ field_at table.now frame.now i p }
{
    if table.len() < TABLE_WORDS {
        return Answer::NoField;
    }
    let signed = signed_at(table, i);
    in_frame(frame, signed, i, p, width_at(table, i))
}

// Field k of a reading.
pub fn field(table: &[u32], frame: &[u8], reading: &[u32], k: usize) -> Answer
    ensures { result ≡ field_of table.now frame.now reading.now k }
{
    if MAX_FRAME_BYTES < frame.len() {
        return Answer::LongFrame;
    }
    if reading.len() / 2 <= k {
        return Answer::NoWords;
    }
    let pair = 2 * k;
    let i = table_layout::word(reading, pair);
    let p = table_layout::word(reading, pair + 1);
    at(table, frame, i, p)
}
