// Numbers of rules in what is stored of a tree, and which of them reach themselves: no code, only laws (proofs/).
#![tactic(auto)]
