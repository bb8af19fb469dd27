// The customer's three conditions, from text and frame to verdict and reading: no code, only statements (specs/) and proofs (proofs/).
#![tactic(auto)]
