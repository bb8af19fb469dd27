// A saved run as bytes: `SAVED_BYTES` of them, numbers with the lowest byte first (docs/TABLE.md, "The saved run").
#![tactic(auto)]

ghost use Rattle.std.specs.Prelude.{◌≡◌, true, ◌+◌, ◌*◌, ◌^◌, ◌≤◌, ◌<◌, eqb, negsuc, length, drop};
ghost use Rattle.std.proofs.lemmas.List.Edits.{sets};
ghost use Rattle.basis.specs.Limits.{max_variables, max_entries};
ghost use Rattle.run_saved.specs.Saved.{saved_bytes, bytes, number, pattern, whole, plain, listed, numbers, encoded, restored, stored};

use basis::{MAX_ENTRIES, MAX_VARIABLES};
use run_grants::Run;

// Where the values, the verdict and the two words of each entry begin, and where the bytes end.
pub const VALUES_AT: usize = 32;

pub const VERDICT_AT: usize = VALUES_AT + 8 * MAX_VARIABLES;

pub const ENTRIES_AT: usize = VERDICT_AT + 4;

pub const PASSES_AT: usize = ENTRIES_AT + 4 * MAX_ENTRIES;

pub const SAVED_BYTES: usize = PASSES_AT + 4 * MAX_ENTRIES;

// The number that `width` bytes are.
fn read(bytes: &[u8], at: usize, width: usize) -> u64
    requires { (at + width ≤ length bytes.now) × (width ≤ 8) }
    ensures { (result ≡ number width (drop at bytes.now)) × (result < 256 ^ width) }
{
    let mut n = 0u64;
    for left in (0..width).rev() {
        n = 256 * n + (bytes[at + left] as u64);
    }
    n
}

// A number as `width` bytes.
fn write(out: &mut [u8], at: usize, width: usize, number: u64)
    requires { at + width ≤ length out.old }
    ensures { out.new ≡ sets out.old at (bytes width number) }
{
    let mut n = number;
    for i in 0..width {
        out[at + i] = (n % 256) as u8;
        n = n / 256;
    }
}

fn read_word(bytes: &[u8], at: usize) -> u32
    requires { at + 4 ≤ length bytes.now }
    ensures { result ≡ number 4 (drop at bytes.now) }
{
    let n = read(bytes, at, 4);
    n as u32
}

fn read_words(bytes: &[u8], at: usize) -> [u32; MAX_ENTRIES]
    requires { at + 4 * max_entries ≤ length bytes.now }
    ensures { result ≡ numbers plain 4 max_entries (drop at bytes.now) }
{
    let mut words = [0u32; MAX_ENTRIES];
    for i in 0usize..MAX_ENTRIES {
        let word = read_word(bytes, at + 4 * i);
        words[i] = word;
    }
    words
}

fn write_words(out: &mut [u8], at: usize, words: &[u32])
    requires { at + 4 * length words.now ≤ length out.old }
    ensures { out.new ≡ sets out.old at (listed plain 4 words.now) }
{
    for i in 0..words.len() {
        write(out, at + 4 * i, 4, words[i] as u64);
    }
}

// -1 - n
fn negative(n: u64) -> i64
    requires { n < 2 ^ 63 }
    ensures { result ≡ negsuc n }
{
    -1 - (n as i64)
}

// The whole number of a pattern.
fn signed(n: u64) -> i64
    ensures { result ≡ whole n }
{
    if n < 9223372036854775808 {
        term_integers::signed(n)
    } else {
        negative(18446744073709551615 - n)
    }
}

// The pattern of a whole number.
fn unsigned(z: i64) -> u64
    ensures { result ≡ pattern z }
{
    let n = term_integers::magnitude(z);
    if term_integers::negative(z) {
        18446744073709551615 - (n - 1)
    } else {
        n
    }
}

fn read_values(bytes: &[u8], at: usize) -> [i64; MAX_VARIABLES]
    requires { at + 8 * max_variables ≤ length bytes.now }
    ensures { result ≡ numbers whole 8 max_variables (drop at bytes.now) }
{
    let mut values = [0i64; MAX_VARIABLES];
    for i in 0usize..MAX_VARIABLES {
        let value = signed(read(bytes, at + 8 * i, 8));
        values[i] = value;
    }
    values
}

fn write_values(out: &mut [u8], at: usize, values: &[i64])
    requires { at + 8 * length values.now ≤ length out.old }
    ensures { out.new ≡ sets out.old at (listed pattern 8 values.now) }
{
    for i in 0..values.len() {
        let value = values[i];
        write(out, at + 8 * i, 8, unsigned(value));
    }
}

// The run that the bytes are; a closed run where there are not so many.
pub fn decode(bytes: &[u8]) -> Run
    ensures { (result ≡ restored bytes.now) × (length bytes.now ≡ saved_bytes → encoded result ≡ bytes.now) }
{
    if bytes.len() != SAVED_BYTES {
        return run_grants::closed();
    }
    let position = read(bytes, 0, 8);
    let count = read(bytes, 8, 8);
    let captures = read(bytes, 16, 8);
    let steps = read(bytes, 24, 8);
    let values = read_values(bytes, VALUES_AT);
    let verdict = read_word(bytes, VERDICT_AT);
    let constructs = read_words(bytes, ENTRIES_AT);
    let passes = read_words(bytes, PASSES_AT);
    Run {
        position,
        count,
        captures,
        steps,
        verdict,
        constructs,
        passes,
        values,
    }
}

// The run's bytes are written, which `decode` reads as that run, and true is answered; nothing is written where there is not room for exactly those.
pub fn encode(run: Run, out: &mut [u8]) -> bool
    ensures { (out.new ≡ stored run out.old) × (result ≡ eqb (length out.old) saved_bytes) × (result ≡ true → restored out.new ≡ run) }
{
    if out.len() != SAVED_BYTES {
        return false;
    }
    let values = run.values;
    let constructs = run.constructs;
    let passes = run.passes;
    let position = run.position;
    let count = run.count;
    let captures = run.captures;
    let steps = run.steps;
    let verdict = run.verdict;
    write(out, 0, 8, position);
    write(out, 8, 8, count);
    write(out, 16, 8, captures);
    write(out, 24, 8, steps);
    write_values(out, VALUES_AT, &values);
    write(out, VERDICT_AT, 4, verdict as u64);
    write_words(out, ENTRIES_AT, &constructs);
    write_words(out, PASSES_AT, &passes);
    true
}
