// The fields of a run are all told: no code, only laws (proofs/).
#![tactic(auto)]
