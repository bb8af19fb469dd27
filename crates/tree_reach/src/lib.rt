// Refusal 7 of the table that is encoded from what is stored of a tree: no code, only laws (proofs/).
#![tactic(auto)]
