// What is wrong with a syntax tree (refusals 5 to 8) and the grammar that it means: no code, only definitions (specs/) and laws (proofs/).
#![tactic(auto)]
