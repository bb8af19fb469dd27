// What the advice on a token goes by: codes of tokens that begin, end and join items, and where a token stands.
#![tactic(auto)]

ghost use Rattle.std.specs.Prelude.{◌≡◌};
ghost use Rattle.report_codes.specs.Codes.{begins_item, ends_item, is_literal, is_ranging, in_field, in_set, is_joining};

// Names, numbers, literals, and what opens an item.
pub fn begins_item(code: usize) -> bool
    ensures { result ≡ begins_item code }
{
    (1 <= code && code <= 3) || (6 <= code && code <= 9) || code == 40 || code == 91
}

// A name, a number, a literal, a closing bracket.
pub fn ends_item(code: usize) -> bool
    ensures { result ≡ ends_item code }
{
    (1 <= code && code <= 3) || code == 7 || code == 9 || code == 41 || code == 93 || code == 125
}

#[tactic(auto, unfolding(crate::specs::Codes::is_literal))]
pub fn literal_code(code: usize) -> bool
    ensures { result ≡ is_literal code }
{
    code == 3 || code == 9
}

pub fn ranging(code: usize, last: usize) -> bool
    ensures { result ≡ is_ranging code last }
{
    (code == 126 && literal_code(last)) || (last == 126 && literal_code(code))
}

// `uint(`, or `uint(` and a width.
pub fn in_field(third: usize, second: usize, last: usize) -> bool
    ensures { result ≡ in_field third second last }
{
    (second == 6 && last == 40) || (third == 6 && second == 40 && last == 2)
}

// A width and a comma; a variable's name and a comma.
pub fn in_set(second: usize, last: usize) -> bool
    ensures { result ≡ in_set second last }
{
    last == 44 && (second == 2 || second == 1)
}

pub fn joins(code: usize) -> bool
    ensures { result ≡ is_joining code }
{
    code == 38 || code == 124
}
