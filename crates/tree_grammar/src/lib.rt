// The grammar of what is stored of a tree is the tree's: no code, only laws (proofs/).
#![tactic(auto)]
