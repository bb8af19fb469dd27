// A frame as a line of hexadecimal. Any bytes may arrive.
#![tactic(auto)]

ghost use Rattle.std.specs.Prelude.{◌≡◌, ◌*◌, ◌/◌, ◌%◌, ◌≤◌, ◌<◌, length};
ghost use Rattle.std.proofs.lemmas.List.Edits.{sets};
ghost use Rattle.text_header.specs.Bytes.{digit_of};
ghost use Rattle.bench_hexadecimal.specs.Lines.{is_frame, line_of, number_of, byte_of, bytes_of};

use basis::MAX_FRAME_BYTES;
use text_header::Class;
use text_header::bytes::digit_value;
use text_header::spans::span;

// The characters that a line may have.
pub const MAX_LINE: usize = 2 * MAX_FRAME_BYTES;

// What a line is, without its end.
#[derive(Clone, Copy)]
pub enum Line {
    // Refused (21): too many characters.
    TooLong,
    // Refused (20): not an even number of hexadecimal digits.
    NoFrame,
    // A frame of so many bytes.
    Frame(usize),
}

// The number of refusal; 0 for a frame.
pub fn number(line: Line) -> u64
    ensures { result ≡ number_of line }
{
    match line {
        Line::TooLong => 21,
        Line::NoFrame => 20,
        Line::Frame(_) => 0,
    }
}

#[tactic(auto, unfolding(crate::specs::Lines::is_frame))]
fn whole(line: &[u8]) -> bool
    ensures { result ≡ is_frame line.now }
{
    let digits = span(Class::Digit(16), line, 0);
    line.len() % 2 == 0 && digits == line.len()
}

#[tactic(auto, unfolding(crate::specs::Lines::line_of))]
pub fn classify(line: &[u8]) -> Line
    ensures { result ≡ line_of line.now }
{
    if MAX_LINE < line.len() {
        return Line::TooLong;
    }
    if whole(line) {
        return Line::Frame(line.len() / 2);
    }
    Line::NoFrame
}

fn low_bits(digit: u8) -> u8
    ensures { (result ≡ digit_of digit % 16) × (result < 16) }
{
    digit_value(digit).unwrap_or(0)
}

fn byte(high: u8, low: u8) -> u8
    ensures { result ≡ byte_of high low }
{
    let h = low_bits(high);
    let l = low_bits(low);
    16 * h + l
}

// The bytes of a line; those after them are left.
pub fn decode(line: &[u8], bytes: &mut [u8])
    requires { length line.now / 2 ≤ length bytes.old }
    ensures { bytes.new ≡ sets bytes.old 0 (bytes_of line.now) }
{
    let n = line.len() / 2;
    for k in 0..n {
        bytes[k] = byte(line[2 * k], line[2 * k + 1]);
    }
}
