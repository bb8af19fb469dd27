// Runs the cases of sets, counts, conditions and sizes that document 01 singles out.
#![tactic(auto)]

ghost use Rattle.std.specs.Prelude.{◌^◌, ◌≤◌, ◌<◌};

use std::io::Stdout;
use term_evaluation::Allowed;
use term_sizes::SizeError;
use term_words::{Kind, TermError};

fn text(out: Stdout, bytes: &[u8]) {
    let _ = out.write_all(bytes);
}

fn natural(out: Stdout, n: u64) {
    let _ = out.print(n);
}

fn whole(out: Stdout, z: i64) {
    if term_integers::negative(z) {
        text(out, b"-");
    }
    natural(out, term_integers::magnitude(z));
}

fn wrong(out: Stdout, error: TermError) {
    match error {
        TermError::Malformed => text(out, b"malformed"),
        TermError::Overflow => text(out, b"overflow"),
    }
}

fn calculated(out: Stdout, name: &[u8], answer: Result<i64, TermError>) {
    text(out, name);
    match answer {
        Ok(z) => whole(out, z),
        Err(error) => wrong(out, error),
    }
    text(out, b"\n");
}

fn counted(out: Stdout, name: &[u8], answer: Result<Allowed, TermError>) {
    text(out, name);
    match answer {
        Ok(Allowed::None) => text(out, b"none"),
        Ok(Allowed::From { low }) => {
            natural(out, low);
            text(out, b" and more");
        }
        Ok(Allowed::Within { low, more }) => {
            natural(out, low);
            text(out, b" and up to ");
            natural(out, more);
            text(out, b" more");
        }
        Err(error) => wrong(out, error),
    }
    text(out, b"\n");
}

fn tested(out: Stdout, answer: Result<bool, TermError>) {
    match answer {
        Ok(false) => text(out, b"-"),
        Ok(true) => text(out, b"x"),
        Err(error) => wrong(out, error),
    }
}

fn sized(out: Stdout, name: &[u8], answer: Result<(), SizeError>) {
    text(out, name);
    match answer {
        Ok(()) => text(out, b"passes"),
        Err(SizeError::Malformed) => text(out, b"malformed"),
        Err(SizeError::Exceeds(at)) => {
            text(out, b"exceeds at term ");
            natural(out, at as u64);
        }
    }
    text(out, b"\n");
}

// The values 0 to 11 of a set.
fn members(out: Stdout, name: &[u8], words: &[u32], end: usize) {
    text(out, name);
    let none = [0i64; 1];
    for value in 0u64..12 {
        tested(
            out,
            term_evaluation::contains(words, 0, end, &none, term_integers::signed(value)),
        );
    }
    text(out, b"\n");
}

#[derive(Clone, Copy)]
struct Windows {
    count: u64,
    least: u64,
    greatest: u64,
}

// How many first windows a set has at a width, and the least and the greatest of them.
fn first_windows(words: &[u32], end: usize, width: u32, signed: bool) -> Windows
    requires { width ≤ 64 }
{
    let marks = term_prefixes::first_windows(words, 0, end, width, signed);
    let mut count: u64 = 0;
    let mut least: u64 = 0;
    let mut greatest: u64 = 0;
    let strings = term_prefixes::window_count(width);
    let half = term_prefixes::first_bit(width, signed);
    for number in 1u64..512 {
        if term_prefixes::leads(&marks, strings, half, number) {
            if least == 0 {
                least = number;
            }
            greatest = number;
            count += 1;
        }
    }
    Windows {
        count,
        least,
        greatest,
    }
}

fn show_windows(out: Stdout, name: &[u8], words: &[u32], end: usize, width: u32, signed: bool)
    requires { width ≤ 64 }
{
    text(out, name);
    let found = first_windows(words, end, width, signed);
    natural(out, found.count);
    text(out, b": ");
    natural(out, found.least);
    text(out, b" ");
    natural(out, found.greatest);
    text(out, b"\n");
}

// Each first window of a set.
fn list_windows(out: Stdout, name: &[u8], words: &[u32], end: usize, width: u32, signed: bool)
    requires { width ≤ 64 }
{
    text(out, name);
    let marks = term_prefixes::first_windows(words, 0, end, width, signed);
    let strings = term_prefixes::window_count(width);
    let half = term_prefixes::first_bit(width, signed);
    for number in 1u64..512 {
        if term_prefixes::leads(&marks, strings, half, number) {
            text(out, b" ");
            natural(out, number);
        }
    }
    text(out, b"\n");
}

// Whether a pattern's value is in a set.
fn show_pattern(
    out: Stdout,
    name: &[u8],
    words: &[u32],
    end: usize,
    pattern: u64,
    width: u32,
    signed: bool,
)
    requires { (width ≤ 64) × (pattern < 2 ^ width) }
{
    text(out, name);
    let none = [0i64; 1];
    tested(
        out,
        term_evaluation::patterns::contains_pattern(words, 0, end, &none, pattern, width, signed),
    );
    text(out, b"\n");
}

fn calculations(out: Stdout) {
    let none = [0i64; 1];
    // 2 - 5 * 3
    let mixed = [1, 2, 0, 1, 5, 0, 1, 3, 0, 5, 0, 0, 4, 0, 0];
    calculated(
        out,
        b"2 - 5 * 3 = ",
        term_evaluation::calculate(&mixed, 0, 5, &none),
    );
    // 1 - -1
    let double = [1, 1, 0, 1, 1, 0, 6, 0, 0, 4, 0, 0];
    calculated(
        out,
        b"1 - -1 = ",
        term_evaluation::calculate(&double, 0, 4, &none),
    );
    // 2^31 * 2^31, and once more by 2
    let large = [
        1, 2147483648, 0, 1, 2147483648, 0, 5, 0, 0, 1, 2, 0, 5, 0, 0,
    ];
    calculated(
        out,
        b"2^31 * 2^31 = ",
        term_evaluation::calculate(&large, 0, 3, &none),
    );
    calculated(
        out,
        b"2^31 * 2^31 * 2 = ",
        term_evaluation::calculate(&large, 0, 5, &none),
    );
    // a sign without its numbers, and a variable that is not there
    calculated(
        out,
        b"+ = ",
        term_evaluation::calculate(&mixed, 3, 4, &none),
    );
    let missing = [2, 7, 0];
    calculated(
        out,
        b"missing = ",
        term_evaluation::calculate(&missing, 0, 1, &none),
    );
    let far = [4611686018427387905i64; 1];
    let first = [2, 0, 0];
    calculated(
        out,
        b"forged = ",
        term_evaluation::calculate(&first, 0, 1, &far),
    );
}

fn counts(out: Stdout) {
    // length - 8
    let length = [2, 0, 0, 1, 8, 0, 4, 0, 0];
    let five = [5i64; 1];
    counted(
        out,
        b"{length - 8} at 5: ",
        term_evaluation::counts::count(&length, 0, 3, &five),
    );
    let twelve = [12i64; 1];
    counted(
        out,
        b"{length - 8} at 12: ",
        term_evaluation::counts::count(&length, 0, 3, &twelve),
    );
    // n - 1
    let less = [2, 0, 0, 1, 1, 0, 4, 0, 0];
    let zero = [0i64; 1];
    counted(
        out,
        b"{n - 1} at 0: ",
        term_evaluation::counts::count(&less, 0, 3, &zero),
    );
    let one = [1i64; 1];
    counted(
        out,
        b"{n - 1} at 1: ",
        term_evaluation::counts::count(&less, 0, 3, &one),
    );
    let around = [1, 1, 0, 6, 0, 0, 1, 1, 0, 8, 0, 0];
    counted(
        out,
        b"{-1~1}: ",
        term_evaluation::counts::count(&around, 0, 4, &zero),
    );
    counted(
        out,
        b"{-1}: ",
        term_evaluation::counts::count(&around, 0, 2, &zero),
    );
    let below = [1, 1, 0, 6, 0, 0, 10, 0, 0];
    counted(
        out,
        b"{~-1}: ",
        term_evaluation::counts::count(&below, 0, 3, &zero),
    );
    let turned = [1, 5, 0, 1, 3, 0, 8, 0, 0];
    counted(
        out,
        b"{5~3}: ",
        term_evaluation::counts::count(&turned, 0, 3, &zero),
    );
    let open = [1, 2, 0, 9, 0, 0];
    counted(
        out,
        b"{2~}: ",
        term_evaluation::counts::count(&open, 0, 2, &zero),
    );
    counted(
        out,
        b"{}: ",
        term_evaluation::counts::count(&open, 0, 0, &zero),
    );
}

const RANGE: [u32; 9] = [1, 1, 0, 1, 8, 0, 8, 0, 0];

const ALL: [u32; 3] = [7, 0, 0];

const WITHOUT: [u32; 15] = [1, 1, 0, 1, 10, 0, 8, 0, 0, 33, 5, 0, 12, 0, 0];

const MIXED: [u32; 21] = [
    33, 1, 0, 1, 3, 0, 1, 4, 0, 8, 0, 0, 33, 3, 0, 12, 0, 0, 11, 0, 0,
];

fn sets(out: Stdout) {
    let range = RANGE;
    members(out, b"1~8            ", &range, 3);
    let all = ALL;
    members(out, b"~              ", &all, 1);
    let without = WITHOUT;
    members(out, b"1~10 ! 5       ", &without, 5);
    let mixed = MIXED;
    members(out, b"1 | 3~4 ! (3)  ", &mixed, 7);
}

fn windows_of_range(out: Stdout) {
    let range = RANGE;
    show_windows(out, b"1~8 of 8: ", &range, 3, 8, false);
    show_windows(out, b"1~8 of 4: ", &range, 3, 4, false);
    show_windows(out, b"1~8 of 9: ", &range, 3, 9, false);
    show_windows(out, b"1~8 of 32: ", &range, 3, 32, false);
}

fn windows_of_all(out: Stdout) {
    let all = ALL;
    show_windows(out, b"~ of 1: ", &all, 1, 1, false);
    show_windows(out, b"~ of 4: ", &all, 1, 4, false);
    show_windows(out, b"~ of 8: ", &all, 1, 8, false);
    show_windows(out, b"~ of 9: ", &all, 1, 9, false);
    show_windows(out, b"~ of 16: ", &all, 1, 16, false);
    show_windows(out, b"~ of 32: ", &all, 1, 32, false);
}

fn windows_of_others(out: Stdout) {
    let without = WITHOUT;
    show_windows(out, b"1~10 ! 5 of 8: ", &without, 5, 8, false);
    let mixed = MIXED;
    show_windows(out, b"1 | 3~4 ! (3) of 4: ", &mixed, 7, 4, false);
    let beyond = [33, 300, 0];
    show_windows(out, b"300 of 8: ", &beyond, 1, 8, false);
    show_windows(out, b"300 of 9: ", &beyond, 1, 9, false);
    let odd = [1, 1000, 0, 1, 1023, 0, 8, 0, 0];
    show_windows(out, b"1000~1023 of 16: ", &odd, 3, 16, false);
    let variable = [34, 0, 0];
    show_windows(out, b"n of 4: ", &variable, 1, 4, false);
}

// A window whose values are all taken away, a value just after an end, an end below 0, and two sets where one belongs.
fn windows_of_ends(out: Stdout) {
    let emptied = [
        1, 512, 0, 1, 1023, 0, 8, 0, 0, 1, 512, 0, 1, 1022, 0, 8, 0, 0, 12, 0, 0,
    ];
    show_windows(out, b"512~1023 ! 512~1022 of 16: ", &emptied, 7, 16, false);
    let after = [7, 0, 0, 1, 511, 0, 10, 0, 0, 12, 0, 0];
    show_windows(out, b"~ ! ~511 of 16: ", &after, 4, 16, false);
    let below = [1, 3, 0, 6, 0, 0, 1, 1, 0, 8, 0, 0];
    show_windows(out, b"-3~1 of 16: ", &below, 4, 16, false);
    let two = [7, 0, 0, 7, 0, 0];
    show_windows(out, b"~ ~ of 16: ", &two, 2, 16, false);
}

// -3~2
const AROUND: [u32; 12] = [1, 3, 0, 6, 0, 0, 1, 2, 0, 8, 0, 0];

// ~-1
const NEGATIVE: [u32; 9] = [1, 1, 0, 6, 0, 0, 10, 0, 0];

// ~ ! 0~2^62
const PAST: [u32; 15] = [7, 0, 0, 1, 0, 0, 1, 0, 1073741824, 8, 0, 0, 12, 0, 0];

// 2^62~
const FROM_LARGE: [u32; 6] = [1, 0, 1073741824, 9, 0, 0];

// -2^62~
const FROM_SMALL: [u32; 9] = [1, 0, 1073741824, 6, 0, 0, 9, 0, 0];

// ~-2^62
const UP_TO_SMALL: [u32; 9] = [1, 0, 1073741824, 6, 0, 0, 10, 0, 0];

fn windows_of_signed(out: Stdout) {
    let around = AROUND;
    list_windows(out, b"-3~2 of 4, signed:", &around, 4, 4, true);
    list_windows(out, b"-3~2 of 4:", &around, 4, 4, false);
    show_windows(out, b"-3~2 of 64, signed: ", &around, 4, 64, true);
    let negative = NEGATIVE;
    list_windows(out, b"~-1 of 1, signed:", &negative, 3, 1, true);
    show_windows(out, b"~-1 of 8, signed: ", &negative, 3, 8, true);
    let all = ALL;
    list_windows(out, b"~ of 1, signed:", &all, 1, 1, true);
    show_windows(out, b"~ of 64, signed: ", &all, 1, 64, true);
    let least = [1, 128, 0, 38, 0, 0];
    list_windows(out, b"-128 of 8, signed:", &least, 2, 8, true);
    let beyond = [33, 128, 0];
    list_windows(out, b"128 of 8, signed:", &beyond, 1, 8, true);
}

fn windows_of_wide(out: Stdout) {
    let past = PAST;
    show_windows(out, b"~ ! 0~2^62 of 64: ", &past, 5, 64, false);
    show_windows(out, b"~ ! 0~2^62 of 62: ", &past, 5, 62, false);
    let large = FROM_LARGE;
    show_windows(out, b"2^62~ of 64: ", &large, 2, 64, false);
    show_windows(out, b"2^62~ of 63: ", &large, 2, 63, false);
    show_windows(out, b"2^62~ of 62: ", &large, 2, 62, false);
    show_windows(out, b"2^62~ of 64, signed: ", &large, 2, 64, true);
    let small = FROM_SMALL;
    show_windows(out, b"-2^62~ of 64, signed: ", &small, 3, 64, true);
    let up_to = UP_TO_SMALL;
    show_windows(out, b"~-2^62 of 64, signed: ", &up_to, 3, 64, true);
    show_windows(out, b"~-2^62 of 62, signed: ", &up_to, 3, 62, true);
}

// ffffffffffffffff, 8000000000000000, 7fffffffffffffff, 2^62 and what lies beside them.
fn patterns_of_past(out: Stdout) {
    let past = PAST;
    show_pattern(
        out,
        b"~ ! 0~2^62, all ones of 64: ",
        &past,
        5,
        18446744073709551615,
        64,
        false,
    );
    show_pattern(
        out,
        b"~ ! 0~2^62, 2^62 + 1 of 64: ",
        &past,
        5,
        4611686018427387905,
        64,
        false,
    );
    show_pattern(
        out,
        b"~ ! 0~2^62, 2^62 of 64: ",
        &past,
        5,
        4611686018427387904,
        64,
        false,
    );
    let large = FROM_LARGE;
    show_pattern(
        out,
        b"2^62~, all ones of 64: ",
        &large,
        2,
        18446744073709551615,
        64,
        false,
    );
    show_pattern(
        out,
        b"2^62~, all ones of 64, signed: ",
        &large,
        2,
        18446744073709551615,
        64,
        true,
    );
    show_pattern(
        out,
        b"2^62~, greatest of 64, signed: ",
        &large,
        2,
        9223372036854775807,
        64,
        true,
    );
}

fn patterns_of_signed(out: Stdout) {
    let negative = NEGATIVE;
    show_pattern(
        out,
        b"~-1, all ones of 64, signed: ",
        &negative,
        3,
        18446744073709551615,
        64,
        true,
    );
    show_pattern(
        out,
        b"~-1, least of 64, signed: ",
        &negative,
        3,
        9223372036854775808,
        64,
        true,
    );
    show_pattern(
        out,
        b"~-1, greatest of 64, signed: ",
        &negative,
        3,
        9223372036854775807,
        64,
        true,
    );
    show_pattern(
        out,
        b"~-1, all ones of 64: ",
        &negative,
        3,
        18446744073709551615,
        64,
        false,
    );
    let up_to = UP_TO_SMALL;
    show_pattern(
        out,
        b"~-2^62, least of 64, signed: ",
        &up_to,
        3,
        9223372036854775808,
        64,
        true,
    );
    show_pattern(
        out,
        b"~-2^62, least of 63, signed: ",
        &up_to,
        3,
        4611686018427387904,
        63,
        true,
    );
    show_pattern(
        out,
        b"~-2^62, least of 62, signed: ",
        &up_to,
        3,
        2305843009213693952,
        62,
        true,
    );
    let least = [1, 128, 0, 38, 0, 0];
    show_pattern(out, b"-128, 80 of 8, signed: ", &least, 2, 128, 8, true);
    let beyond = [33, 128, 0];
    show_pattern(out, b"128, 80 of 8, signed: ", &beyond, 1, 128, 8, true);
}

fn condition(out: Stdout, name: &[u8], words: &[u32], end: usize) {
    text(out, name);
    for value in 0u64..6 {
        let at = term_integers::signed(value);
        let values = [at; 1];
        tested(out, term_evaluation::satisfied(words, 0, end, &values));
    }
    text(out, b"\n");
}

fn conditions(out: Stdout) {
    let equal = [2, 0, 0, 1, 1, 0, 14, 0, 0];
    condition(out, b"t = 1          ", &equal, 3);
    let other = [2, 0, 0, 1, 1, 0, 15, 0, 0];
    condition(out, b"t != 1         ", &other, 3);
    // t > 1 & t <= 4
    let both = [
        2, 0, 0, 1, 1, 0, 18, 0, 0, 2, 0, 0, 1, 4, 0, 17, 0, 0, 13, 0, 0,
    ];
    condition(out, b"t > 1 & t <= 4 ", &both, 7);
    let either = [
        2, 0, 0, 1, 1, 0, 16, 0, 0, 2, 0, 0, 1, 4, 0, 19, 0, 0, 11, 0, 0,
    ];
    condition(out, b"t < 1 | t >= 4 ", &either, 7);
}

fn size_rule(out: Stdout) {
    let widest = [4294967295i64; 2];
    // x * z, of which the size passes 2^62, then by 0
    let part = [2, 0, 0, 2, 1, 0, 5, 0, 0, 1, 0, 0, 5, 0, 0];
    sized(
        out,
        b"x * z * 0: ",
        term_sizes::measure(Kind::Calculation, &part, 0, 5, &widest),
    );
    let whole = [1, 0, 0, 2, 0, 0, 5, 0, 0, 2, 1, 0, 5, 0, 0];
    sized(
        out,
        b"0 * x * z: ",
        term_sizes::measure(Kind::Calculation, &whole, 0, 5, &widest),
    );
    let exact = [1, 2147483648, 0, 1, 2147483648, 0, 5, 0, 0];
    sized(
        out,
        b"2^31 * 2^31: ",
        term_sizes::measure(Kind::Calculation, &exact, 0, 3, &widest),
    );
    let less = [
        1, 2147483648, 0, 1, 2147483648, 0, 5, 0, 0, 1, 1, 0, 4, 0, 0,
    ];
    sized(
        out,
        b"2^31 * 2^31 - 1: ",
        term_sizes::measure(Kind::Calculation, &less, 0, 5, &widest),
    );
    sized(
        out,
        b"{x * z * 0}: ",
        term_sizes::measure_counts(&part, 0, 5, &widest),
    );
    sized(
        out,
        b"a sign alone: ",
        term_sizes::measure(Kind::Set, &part, 2, 3, &widest),
    );
}

fn main(rt: HostRuntime) {
    let out = rt.stdout();
    calculations(out);
    counts(out);
    sets(out);
    windows_of_range(out);
    windows_of_all(out);
    windows_of_others(out);
    windows_of_ends(out);
    windows_of_signed(out);
    windows_of_wide(out);
    patterns_of_past(out);
    patterns_of_signed(out);
    conditions(out);
    size_rule(out);
}
