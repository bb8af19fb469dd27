// A window: what comes next in a frame. Its number is a 1 followed by its bits.
ghost use Rattle.std.specs.Prelude.{◌≡◌, ◌%◌, ◌<◌};
ghost use Rattle.report_wording.specs.Shown.{size_below_16, size_from_16, size_of, digit_of};

use report_wording::writing::{hexadecimal, number, say};
use std::io::Stdout;

#[tactic(auto, unfolding(report_wording::specs::Shown::size_below_16))]
fn size_below_16(window: usize) -> usize
    ensures { result ≡ size_below_16 window }
{
    if window < 2 {
        0
    } else if window < 4 {
        1
    } else if window < 8 {
        2
    } else {
        3
    }
}

#[tactic(auto, unfolding(report_wording::specs::Shown::size_from_16))]
fn size_from_16(window: usize) -> usize
    ensures { result ≡ size_from_16 window }
{
    if window < 32 {
        4
    } else if window < 64 {
        5
    } else if window < 128 {
        6
    } else if window < 256 {
        7
    } else {
        8
    }
}

// How many bits it has.
#[tactic(auto, unfolding(report_wording::specs::Shown::size_of))]
fn size(window: usize) -> usize
    ensures { result ≡ size_of window }
{
    if window < 16 {
        size_below_16(window)
    } else {
        size_from_16(window)
    }
}

#[tactic(auto, unfolding(report_wording::specs::Shown::digit_of))]
fn digit(n: usize) -> u8
    ensures { result ≡ digit_of n }
{
    if n % 2 == 0 { b'0' } else { b'1' }
}

pub fn binary(out: Stdout, window: usize, n: usize) {
    let digits = [
        digit(window / 128),
        digit(window / 64),
        digit(window / 32),
        digit(window / 16),
        digit(window / 8),
        digit(window / 4),
        digit(window / 2),
        digit(window),
    ];
    if n <= 8 {
        say(out, &digits[8 - n..]);
    }
}

fn character(out: Stdout, b: u8) {
    if b.is_ascii_graphic() {
        say(out, b", the character ");
        say(out, &[b]);
    } else if b == b' ' {
        say(out, b", a space");
    }
}

// A number's last 8 bits.
fn byte(n: usize) -> u8
    ensures { result ≡ n % 256 }
{
    (n % 256) as u8
}

// 2 to the number of bits.
fn power(n: usize) -> usize
    ensures { 0 < result }
{
    match n {
        1 => 2,
        2 => 4,
        3 => 8,
        4 => 16,
        5 => 32,
        6 => 64,
        7 => 128,
        _ => 256,
    }
}

// Two digits from five bits on.
fn digits(n: usize) -> usize {
    if n < 5 { 1 } else { 2 }
}

fn value(out: Stdout, window: usize, n: usize) {
    let v = window % power(n);
    hexadecimal(out, b" (hexadecimal ", v, digits(n));
    number(out, b", decimal ", v);
    if n == 8 {
        character(out, byte(v));
    }
    say(out, b").\n");
}

fn short(out: Stdout, n: usize) {
    if n < 8 {
        say(
            out,
            b"The pattern has fewer than 8 bits because the frame ends after it.\n",
        );
    }
}

fn into(out: Stdout, k: usize) {
    number(out, b" (they begin ", k);
    say(out, b" bits into a byte).\n");
}

// Fewer than 8 bits are all that is left of the frame.
fn several(out: Stdout, n: usize) {
    if n == 1 {
        say(out, b" (the last bit of the frame).\n");
    } else if n < 8 {
        number(out, b" (the last ", n);
        say(out, b" bits of the frame).\n");
    } else {
        say(out, b" (they can begin at different bits of a byte).\n");
    }
}

// Where the bits begin in a byte is a set of remainders by 8: at one place, at several, or nowhere.
fn elsewhere(out: Stdout, starts: usize, n: usize) {
    match starts {
        0 => say(
            out,
            b" (no frame comes to this place: nothing uses the rule).\n",
        ),
        2 => into(out, 1),
        4 => into(out, 2),
        8 => into(out, 3),
        16 => into(out, 4),
        32 => into(out, 5),
        64 => into(out, 6),
        128 => into(out, 7),
        _ => several(out, n),
    }
}

// A byte and its character only where a byte begins.
fn placed(out: Stdout, window: usize, n: usize, starts: usize) {
    if starts == 1 {
        value(out, window, n);
    } else {
        elsewhere(out, starts, n);
    }
}

// A full stop and a line's end follow the bits.
pub fn window(out: Stdout, window: usize, starts: usize) {
    let n = size(window);
    if n == 0 {
        say(out, b" the frame's end: no bits come next.\n");
        return;
    }
    say(out, b" the bits ");
    binary(out, window, n);
    placed(out, window, n, starts);
    short(out, n);
}
