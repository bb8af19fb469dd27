// The grammar that a text means, and that the words encoded from it hold the same: no code, only definitions (specs/) and laws (proofs/).
#![tactic(auto)]
