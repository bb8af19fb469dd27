// No code: `specs/` says which variables a construct of a table may use, and `proofs/` that well laid out words keep to it.
#![tactic(auto)]
