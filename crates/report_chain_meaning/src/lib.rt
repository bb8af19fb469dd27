// What a chain of steps that spells a window is (specs/), and that every window has one (proofs/): no code.
#![tactic(auto)]
