// The words that are encoded from a right text are laid out: no code, only definitions (specs/) and laws (proofs/).
#![tactic(auto)]
