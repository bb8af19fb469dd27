// No code: `specs/` says what a frame grammar means, and `proofs/` has the theorems between its definitions.
#![tactic(auto)]
