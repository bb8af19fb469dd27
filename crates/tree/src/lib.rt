// The syntax tree of a text's rules and how it is spelled: no code, only definitions (specs/) and laws (proofs/).
#![tactic(auto)]
