// What a step over words is in the theory: no code, only laws (proofs/).
#![tactic(auto)]
