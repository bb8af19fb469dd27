// What a right text's words are: trees of nodes, and lists of terms for each. No code, only definitions (specs/) and laws (proofs/).
#![tactic(auto)]
