// What the reader's store holds of a tree: no code, only laws (proofs/).
#![tactic(auto)]
