// What laid out words give: no code, only laws (proofs/).
#![tactic(auto)]
