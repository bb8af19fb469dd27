// Passes of a repetition on the stack, and whether so many are allowed.
ghost use Rattle.std.specs.Prelude.{true, ◌≡◌, List, ◌++◌, ℕ, ◌+◌, ◌-◌, ◌<◌, ◌≤◌, min, replicate};
ghost use Rattle.basis.specs.Counts.{Counts, from, within, Allows};
ghost use Rattle.basis.specs.Limits.{max_constructs};
ghost use Rattle.table_layout.specs.Constructs.{construct_at};
ghost use Rattle.table_layout.specs.Held.{term_words as termWords, allowed, passes_static as passesStatic};
ghost use Rattle.report_chain_steps.specs.Replayed.{no_depth, stack, counts_at as countsAt, passes_of as passesOf, Fits};

use crate::NO_DEPTH;
use crate::stack::{below_copies, below_past_eight};
use table_layout::{LITERALS_AT, Passes, TERMS_AT};
use term_evaluation::Allowed;
use term_words::TermError;

// The words of the terms.
fn term_words(table: &[u32]) -> &[u32]
    ensures { result.now ≡ termWords table.now }
{
    let n = table.len();
    if n < TERMS_AT {
        return &table[n..n];
    }
    if n < LITERALS_AT {
        return &table[TERMS_AT..n];
    }
    &table[TERMS_AT..LITERALS_AT]
}

// The counts that the terms from `start` up to `end` allow; with a variable, all.
fn counted(table: &[u32], start: usize, end: usize) -> Result<Allowed, TermError>
    ensures { allowed result ≡ passesStatic table.now (Passes.Counted start end) }
{
    let words = term_words(table);
    if term_evaluation::variables::has_variable(words, start, end) {
        return Ok(Allowed::From { low: 0 });
    }
    let none = [0i64; 1];
    term_evaluation::counts::count(words, start, end, &none[0..0])
}

fn static_counts(table: &[u32], passes: Passes) -> Result<Allowed, TermError>
    ensures { allowed result ≡ passesStatic table.now passes }
{
    match passes {
        Passes::Optional => Ok(Allowed::Within { low: 0, more: 1 }),
        Passes::Any => Ok(Allowed::From { low: 0 }),
        Passes::Some => Ok(Allowed::From { low: 1 }),
        Passes::Counted { start, end } => counted(table, start, end),
    }
}

fn fits_from(low: u64, n: usize) -> bool
    ensures { result ≡ true → Fits (from low) n }
{
    if n == 8 {
        return true;
    }
    if n < 8 {
        return low <= n as u64;
    }
    false
}

fn fits_within(low: u64, more: u64, n: usize) -> bool
    ensures { result ≡ true → Fits (within low more) n }
{
    if 8 < n {
        return false;
    }
    let k = n as u64;
    if k < low {
        return k == 8;
    }
    k - low <= more
}

// Whether n passes are among the counts; eight stand for eight or more.
fn fits(counts: Result<Allowed, TermError>, n: usize) -> bool
    ensures { result ≡ true → Fits (allowed counts) n }
{
    let Ok(allowed) = counts else {
        return false;
    };
    match allowed {
        Allowed::None => false,
        Allowed::From { low } => fits_from(low, n),
        Allowed::Within { low, more } => fits_within(low, more, n),
    }
}

// The rows below n passes of the body of repetition i, and below those past the eighth.
fn below_these(items: &[usize], depth: usize, i: usize, n: usize) -> usize
    requires { i < max_constructs }
    ensures { result < no_depth → (ws : List ℕ) → stack ws items.now depth ≡ replicate (passesOf (countsAt ws (construct_at ws i)) n) (i + 1) ++ stack ws items.now result }
{
    let d = below_copies(items, depth, i + 1, n);
    if n == 8 {
        if d < NO_DEPTH {
            return below_past_eight(items, d, i);
        }
    }
    d
}

// The rows below passes of repetition i, n of them as far as eight.
pub fn below_passes(
    table: &[u32],
    items: &[usize],
    depth: usize,
    i: usize,
    passes: Passes,
    n: usize,
) -> usize
    requires { (i < max_constructs) × (countsAt table.now (construct_at table.now i) ≡ passesStatic table.now passes) }
    ensures { result < no_depth → (k : ℕ) × Allows (passesStatic table.now passes) k × (n ≡ min 8 k) × (stack table.now items.now depth ≡ replicate k (i + 1) ++ stack table.now items.now result) }
{
    if fits(static_counts(table, passes), n) {
        return below_these(items, depth, i, n);
    }
    NO_DEPTH
}
