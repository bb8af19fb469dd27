// The lists of terms that are stored of a tree's sets, counts and conditions: no code, only laws (proofs/).
#![tactic(auto)]
