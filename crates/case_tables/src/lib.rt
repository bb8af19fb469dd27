// Tables of the bench sheet's grammars, laid out by hand, for programs that try them. Their sets are 0 but where a function says otherwise.
#![tactic(auto)]

ghost use Rattle.std.specs.Prelude.{◌≡◌, cond, ltb, set};
ghost use Rattle.basis.specs.Limits.{table_words};

use basis::TABLE_WORDS;

// A word of a table; past its end nothing is written.
pub fn put(table: &mut [u32; TABLE_WORDS], k: usize, w: u32)
    ensures { table.new ≡ cond (ltb k table_words) (set table.old k w) table.old }
{
    if k < TABLE_WORDS {
        table[k] = w;
    }
}

fn header(
    table: &mut [u32; TABLE_WORDS],
    constructs: u32,
    variables: u32,
    terms: u32,
    weight: u32,
) {
    put(table, 0, 1399811687);
    put(table, 1, 1);
    put(table, 2, constructs);
    put(table, 3, variables);
    put(table, 4, terms);
    put(table, 5, weight);
    put(table, 66, variables);
}

fn construct(table: &mut [u32; TABLE_WORDS], i: u8, kind: u32, size: u32) {
    let at = 576 + 8 * (i as usize);
    put(table, at, kind);
    put(table, at + 1, size);
}

fn operands(table: &mut [u32; TABLE_WORDS], i: u8, a: u32, b: u32, c: u32, d: u32) {
    let at = 576 + 8 * (i as usize);
    put(table, at + 2, a);
    put(table, at + 3, b);
    put(table, at + 4, c);
    put(table, at + 5, d);
}

fn condition(table: &mut [u32; TABLE_WORDS], i: u8, start: u32, end: u32) {
    let at = 576 + 8 * (i as usize);
    put(table, at + 6, start);
    put(table, at + 7, end);
}

fn bytes(table: &mut [u32; TABLE_WORDS], i: u8, first: u32) {
    put(table, 5696 + 8 * (i as usize), first);
}

fn term(table: &mut [u32; TABLE_WORDS], t: u8, tag: u32, low: u32) {
    let at = 2624 + 3 * (t as usize);
    put(table, at, tag);
    put(table, at + 1, low);
}

// The high half of a number.
fn high(table: &mut [u32; TABLE_WORDS], t: u8, half: u32) {
    put(table, 2626 + 3 * (t as usize), half);
}

// Variable 0.
fn variable(table: &mut [u32; TABLE_WORDS], construct: u32, width: u32) {
    put(table, 320, construct);
    put(table, 321, width);
}

// `frame = uint(8, var(len, 1~8)) & uint(8, ~){len};`
pub fn g(table: &mut [u32; TABLE_WORDS]) {
    header(table, 4, 1, 5, 6);
    variable(table, 1, 8);
    construct(table, 0, 2, 4);
    construct(table, 1, 8, 1);
    operands(table, 1, 8, 0, 3, 1);
    construct(table, 2, 3, 2);
    operands(table, 2, 4, 3, 4, 0);
    construct(table, 3, 8, 1);
    operands(table, 3, 8, 4, 5, 0);
    term(table, 0, 1, 1);
    term(table, 1, 1, 8);
    term(table, 2, 8, 0);
    term(table, 3, 2, 0);
    term(table, 4, 7, 0);
}

// `frame = "AB" | "AC";`
pub fn k5(table: &mut [u32; TABLE_WORDS]) {
    header(table, 3, 0, 0, 3);
    construct(table, 0, 1, 3);
    construct(table, 1, 6, 1);
    operands(table, 1, 2, 0, 0, 0);
    bytes(table, 1, 16961);
    construct(table, 2, 6, 1);
    operands(table, 2, 2, 0, 0, 0);
    bytes(table, 2, 17217);
}

// `frame = uint(4,1)* & uint(4,2);`
pub fn k6(table: &mut [u32; TABLE_WORDS]) {
    header(table, 4, 0, 2, 6);
    construct(table, 0, 2, 4);
    construct(table, 1, 3, 2);
    operands(table, 1, 2, 0, 0, 0);
    construct(table, 2, 8, 1);
    operands(table, 2, 4, 0, 1, 0);
    construct(table, 3, 8, 1);
    operands(table, 3, 4, 1, 2, 0);
    term(table, 0, 33, 1);
    term(table, 1, 33, 2);
}

// Of the sets of K6, those that its steps look at: what its repetition's body begins with, 00010001 and 00010010, and what follows, 0010.
pub fn k6_sets(table: &mut [u32; TABLE_WORDS]) {
    put(table, 7816, 393216);
    put(table, 7792, 262144);
}

// `frame = uint(8, var(n, ~)) & uint(8, ~){n - 1};`
pub fn k9(table: &mut [u32; TABLE_WORDS]) {
    header(table, 4, 1, 5, 6);
    variable(table, 1, 8);
    construct(table, 0, 2, 4);
    construct(table, 1, 8, 1);
    operands(table, 1, 8, 0, 1, 1);
    construct(table, 2, 3, 2);
    operands(table, 2, 4, 1, 4, 0);
    construct(table, 3, 8, 1);
    operands(table, 3, 8, 4, 5, 0);
    term(table, 0, 7, 0);
    term(table, 1, 2, 0);
    term(table, 2, 1, 1);
    term(table, 3, 4, 0);
    term(table, 4, 7, 0);
}

// `frame = uint(8, var(t, ~)) & [t = 1: "A"; t = 2: uint(16, ~);];`
pub fn k10(table: &mut [u32; TABLE_WORDS]) {
    header(table, 5, 1, 8, 5);
    variable(table, 1, 8);
    construct(table, 0, 2, 5);
    construct(table, 1, 8, 1);
    operands(table, 1, 8, 0, 1, 1);
    construct(table, 2, 4, 3);
    construct(table, 3, 6, 1);
    operands(table, 3, 1, 0, 0, 0);
    condition(table, 3, 1, 4);
    bytes(table, 3, 65);
    construct(table, 4, 8, 1);
    operands(table, 4, 16, 7, 8, 0);
    condition(table, 4, 4, 7);
    term(table, 0, 7, 0);
    term(table, 1, 2, 0);
    term(table, 2, 1, 1);
    term(table, 3, 14, 0);
    term(table, 4, 2, 0);
    term(table, 5, 1, 2);
    term(table, 6, 14, 0);
    term(table, 7, 7, 0);
}

// `frame = ("A"?)*;`
pub fn k8(table: &mut [u32; TABLE_WORDS]) {
    header(table, 3, 0, 0, 8);
    construct(table, 0, 3, 3);
    operands(table, 0, 2, 0, 0, 0);
    construct(table, 1, 3, 2);
    operands(table, 1, 1, 0, 0, 0);
    construct(table, 2, 6, 1);
    operands(table, 2, 1, 0, 0, 0);
    bytes(table, 2, 65);
}

// `a = "x" & b; b = a;`
pub fn k11(table: &mut [u32; TABLE_WORDS]) {
    header(table, 4, 0, 0, 1);
    put(table, 1, 2);
    put(table, 68, 3);
    construct(table, 0, 2, 3);
    construct(table, 1, 6, 1);
    operands(table, 1, 1, 0, 0, 0);
    bytes(table, 1, 120);
    construct(table, 2, 5, 1);
    operands(table, 2, 1, 0, 0, 0);
    construct(table, 3, 5, 1);
}

// `frame = uint(8, 4294967295 * 4294967295);`
pub fn large(table: &mut [u32; TABLE_WORDS]) {
    header(table, 1, 0, 3, 2);
    construct(table, 0, 8, 1);
    operands(table, 0, 8, 0, 3, 0);
    term(table, 0, 1, 4294967295);
    term(table, 1, 1, 4294967295);
    term(table, 2, 37, 0);
}

// `frame = uint(4, ~){1~} & "A"?;`: the repetition cannot tell whether to go on.
pub fn unclear(table: &mut [u32; TABLE_WORDS]) {
    header(table, 5, 0, 3, 8);
    construct(table, 0, 2, 5);
    construct(table, 1, 3, 2);
    operands(table, 1, 4, 0, 2, 0);
    construct(table, 2, 8, 1);
    operands(table, 2, 4, 2, 3, 0);
    construct(table, 3, 3, 2);
    operands(table, 3, 1, 0, 0, 0);
    construct(table, 4, 6, 1);
    operands(table, 4, 1, 0, 0, 0);
    bytes(table, 4, 65);
    term(table, 0, 1, 1);
    term(table, 1, 9, 0);
    term(table, 2, 7, 0);
}

// Rule r is two uses of rule r + 1.
fn twice(table: &mut [u32; TABLE_WORDS], r: u8) {
    if r < 80 {
        let i = 3 * r;
        put(table, 64 + 4 * (r as usize), i as u32);
        construct(table, i, 2, 3);
        construct(table, i + 1, 5, 1);
        operands(table, i + 1, r as u32 + 1, 0, 0, 0);
        construct(table, i + 2, 5, 1);
        operands(table, i + 2, r as u32 + 1, 0, 0, 0);
    }
}

fn four_times(table: &mut [u32; TABLE_WORDS], r: u8) {
    if r < 80 {
        twice(table, r);
        twice(table, r + 1);
        twice(table, r + 2);
        twice(table, r + 3);
    }
}

// 17 rules, each but the last two uses of the next; the last is `"A"`.
pub fn heavy(table: &mut [u32; TABLE_WORDS]) {
    header(table, 49, 0, 0, 1);
    put(table, 1, 17);
    four_times(table, 0);
    four_times(table, 4);
    four_times(table, 8);
    four_times(table, 12);
    put(table, 128, 48);
    construct(table, 48, 6, 1);
    operands(table, 48, 1, 0, 0, 0);
    bytes(table, 48, 65);
}

// `a = "A"; b = "B"; c = b;`: only c uses b, and nothing uses c.
pub fn unreached(table: &mut [u32; TABLE_WORDS]) {
    header(table, 3, 0, 0, 1);
    put(table, 1, 3);
    put(table, 68, 1);
    put(table, 72, 2);
    construct(table, 0, 6, 1);
    operands(table, 0, 1, 0, 0, 0);
    bytes(table, 0, 65);
    construct(table, 1, 6, 1);
    operands(table, 1, 1, 0, 0, 0);
    bytes(table, 1, 66);
    construct(table, 2, 5, 1);
    operands(table, 2, 1, 0, 0, 0);
}

// `frame = uint(4, 16);`: 4 bits have no 16.
pub fn valueless(table: &mut [u32; TABLE_WORDS]) {
    header(table, 1, 0, 1, 1);
    construct(table, 0, 8, 1);
    operands(table, 0, 4, 0, 1, 0);
    term(table, 0, 33, 16);
}

// `frame = sint(8, var(d, -2~2)) & uint(64, 4294967296 + d~);`
pub fn wide(table: &mut [u32; TABLE_WORDS]) {
    header(table, 3, 1, 8, 4);
    variable(table, 1, 8);
    put(table, 322, 1);
    construct(table, 0, 2, 3);
    construct(table, 1, 12, 1);
    operands(table, 1, 8, 0, 4, 1);
    construct(table, 2, 8, 1);
    operands(table, 2, 64, 4, 8, 0);
    term(table, 0, 1, 2);
    term(table, 1, 6, 0);
    term(table, 2, 1, 2);
    term(table, 3, 8, 0);
    term(table, 4, 1, 0);
    high(table, 4, 1);
    term(table, 5, 2, 0);
    term(table, 6, 3, 0);
    term(table, 7, 9, 0);
}

// `frame = sint(4, 8);`: 4 bits have no 8 where the first counts −8.
pub fn valueless_sint(table: &mut [u32; TABLE_WORDS]) {
    header(table, 1, 0, 1, 1);
    construct(table, 0, 12, 1);
    operands(table, 0, 4, 0, 1, 0);
    term(table, 0, 33, 8);
}
