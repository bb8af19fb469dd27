// The form of rules as productions: no code, only definitions (specs/) and laws (proofs/).
#![tactic(auto)]
