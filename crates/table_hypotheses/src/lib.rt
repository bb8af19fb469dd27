// What a sound table gives: every hypothesis of the theory, and that a grammar has one table. No code, only laws (proofs/).
#![tactic(auto)]
