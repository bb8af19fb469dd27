// What `admission_call::admit` promises of a text, said of its tree (specs/), and why (proofs/): no code.
#![tactic(auto)]
