// Sets, counts and conditions of a syntax tree as the trees that lists of terms hold: no code, only definitions (specs/) and laws (proofs/).
#![tactic(auto)]
