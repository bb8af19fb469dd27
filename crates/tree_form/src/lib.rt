// The form of rules said of the syntax tree: no code, only definitions (specs/) and laws (proofs/).
#![tactic(auto)]
