// Numbers.
ghost use Rattle.std.specs.Prelude.{◌≡◌, ◌+◌, ◌*◌, ◌≤◌, ◌<◌, length, drop};
ghost use Rattle.text_tokens.specs.Numbers.{named_radix, radix_of, radix_at, digits_at, number_end_of, digits_value, number_value, capped};

use text_header::Class;
use text_header::bytes::{digit_value, lower};
use text_header::spans::{byte_at, span};

fn radix_named(b: u8) -> u8
    ensures { (result ≡ named_radix b) × (2 ≤ result) × (result ≤ 16) }
{
    match lower(b) {
        b'x' => 16,
        b'o' => 8,
        b'b' => 2,
        _ => 10,
    }
}

#[tactic(auto, unfolding(crate::specs::Numbers::radix_at))]
fn radix(text: &[u8], at: usize) -> u8
    requires { at < length text.now }
    ensures { (result ≡ radix_at text.now at) × (2 ≤ result) × (result ≤ 16) }
{
    if byte_at(text, at) == b'0' {
        let named = radix_named(byte_at(text, at + 1));
        if matches!(digit_value(byte_at(text, at + 2)), Some(d) if d < named) {
            return named;
        }
    }
    10
}

// Where the digits of the number at `at` begin.
#[tactic(auto, unfolding(crate::specs::Numbers::digits_at))]
fn first_digit(text: &[u8], at: usize) -> usize
    requires { at < length text.now }
    ensures { result ≡ digits_at text.now at }
{
    if radix(text, at) == 10 {
        return at;
    }
    at + 2
}

#[tactic(auto, unfolding(crate::specs::Numbers::number_end_of))]
pub fn number_end(text: &[u8], at: usize) -> usize
    requires { at < length text.now }
    ensures { result ≡ number_end_of text.now at }
{
    span(Class::Digit(radix(text, at)), text, first_digit(text, at))
}

// One digit more.
fn pushed(v: u64, radix: u64, d: u64) -> u64
    requires { (2 ≤ radix) × (radix ≤ 16) × (d ≤ 16) }
    ensures { result ≡ capped (v * radix + d) }
{
    if (4611686018427387905 - d) / radix < v {
        return 4611686018427387905;
    }
    v * radix + d
}

// The value of the digits from `at` on.
fn digits(radix: u8, text: &[u8], at: usize) -> u64
    requires { (2 ≤ radix) × (radix ≤ 16) }
    ensures { result ≡ capped (digits_value radix 0 (drop at text.now)) }
{
    let mut v: u64 = 0;
    for i in at..text.len() {
        let Some(d) = digit_value(text[i]) else {
            return v;
        };
        if radix <= d {
            return v;
        }
        v = pushed(v, u64::from(radix), u64::from(d));
    }
    v
}

// The value of the number at `at`, of any length; 2^62 + 1 where it is over 2^62.
pub fn number_at(text: &[u8], at: usize) -> u64
    requires { at < length text.now }
    ensures { result ≡ capped (number_value text.now at) }
{
    digits(radix(text, at), text, first_digit(text, at))
}
