// The limits, as the code has them; `specs/` has the bit strings and sets of counts that every other crate speaks of.
#![tactic(auto)]

ghost use Rattle.std.specs.Prelude.{◌≡◌, List, ◌∷◌, []};
ghost use Rattle.basis.specs.Limits.{max_text_bytes, max_name_bytes, max_nesting, max_rules, max_constructs, max_variables, max_terms, max_literal_bytes, max_width, max_bound_width, max_weight, table_words, max_frame_bytes, max_frame_bits, max_entries};

// A text.
pub const MAX_TEXT_BYTES: usize = 8192;

pub const MAX_NAME_BYTES: usize = 32;

pub const MAX_NESTING: usize = 16;

// A grammar.
pub const MAX_RULES: usize = 64;

pub const MAX_CONSTRUCTS: usize = 256;

pub const MAX_VARIABLES: usize = 64;

pub const MAX_TERMS: usize = 1024;

pub const MAX_LITERAL_BYTES: usize = 32;

pub const MAX_WIDTH: usize = 64;

pub const MAX_BOUND_WIDTH: usize = 62;

pub const MAX_WEIGHT: usize = 65535;

pub const TABLE_WORDS: usize = 16384;

// A run.
pub const MAX_FRAME_BYTES: usize = 1024;

pub const MAX_FRAME_BITS: usize = 8 * MAX_FRAME_BYTES;

pub const MAX_ENTRIES: usize = 256;

// The code's limits are those of the specification.
pub fn every_limit() -> [usize; 15]
    ensures { result ≡ (max_text_bytes ∷ max_name_bytes ∷ max_nesting ∷ max_rules ∷ max_constructs ∷ max_variables ∷ max_terms ∷ max_literal_bytes ∷ max_width ∷ max_bound_width ∷ max_weight ∷ table_words ∷ max_frame_bytes ∷ max_frame_bits ∷ max_entries ∷ []) }
{
    [
        MAX_TEXT_BYTES,
        MAX_NAME_BYTES,
        MAX_NESTING,
        MAX_RULES,
        MAX_CONSTRUCTS,
        MAX_VARIABLES,
        MAX_TERMS,
        MAX_LITERAL_BYTES,
        MAX_WIDTH,
        MAX_BOUND_WIDTH,
        MAX_WEIGHT,
        TABLE_WORDS,
        MAX_FRAME_BYTES,
        MAX_FRAME_BITS,
        MAX_ENTRIES,
    ]
}
