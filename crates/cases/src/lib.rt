// Document 01's lettered reference cases: one table (specs/) and one proof (proofs/), no code.
#![tactic(auto)]
