// The grammar of a text and the grammar of its tree have the same derivations, sets, weights and runs: no code, only laws (proofs/).
#![tactic(auto)]
