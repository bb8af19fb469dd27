// The fields of a kiosk's run, by the calls of a C program: no code, only laws (proofs/).
#![tactic(auto)]
