// Document 01's bench sheet, K1 to K11, in a single table from text to answer: no code, only the table (specs/) and its proof (proofs/).
#![tactic(auto)]
