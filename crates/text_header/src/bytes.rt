// Classes of bytes.
ghost use Rattle.std.specs.Prelude.{◌≡◌, ◌&&◌, ◌||◌, not, cond, ◌≤◌, eqb};
ghost use Rattle.text_header.specs.Bytes.{within as withinOf, is_letter, is_digit, is_name, is_blank, is_separator, is_printable, is_header, lower_case, digit_found, in_class};

use crate::Class;

pub fn within(low: u8, b: u8, high: u8) -> bool
    ensures { result ≡ withinOf low b high }
{
    low <= b && b <= high
}

pub fn letter(b: u8) -> bool
    ensures { result ≡ is_letter b }
{
    within(b'A', b, b'Z') || within(b'a', b, b'z')
}

pub fn digit(b: u8) -> bool
    ensures { result ≡ is_digit b }
{
    within(b'0', b, b'9')
}

fn name_byte(b: u8) -> bool
    ensures { result ≡ is_name b }
{
    letter(b) || digit(b) || b == b'_'
}

pub fn blank(b: u8) -> bool
    ensures { result ≡ is_blank b }
{
    b == b' ' || b == b'\t'
}

pub fn separator(b: u8) -> bool
    ensures { result ≡ is_separator b }
{
    blank(b) || b == b'\r' || b == b'\n'
}

pub fn printable(b: u8) -> bool
    ensures { result ≡ is_printable b }
{
    within(b' ', b, b'~')
}

fn header_byte(b: u8) -> bool
    ensures { result ≡ is_header b }
{
    printable(b) || b == b'\t'
}

pub fn lower(b: u8) -> u8
    ensures { result ≡ lower_case b }
{
    if within(b'A', b, b'Z') {
        return b + 32;
    }
    b
}

// The value of a hexadecimal digit.
pub fn digit_value(b: u8) -> Option<u8>
    ensures { result ≡ digit_found b }
{
    match b {
        b'0'..=b'9' => Some(b - b'0'),
        b'a'..=b'f' => Some(b - b'a' + 10),
        b'A'..=b'F' => Some(b - b'A' + 10),
        _ => None,
    }
}

pub fn member(class: Class, b: u8) -> bool
    ensures { result ≡ in_class class b }
{
    match class {
        Class::Blank => blank(b),
        Class::Header => header_byte(b),
        Class::Name => name_byte(b),
        Class::Digit(radix) => digit_value(b).unwrap_or(16) < radix,
        Class::Except(other) => b != other,
    }
}
