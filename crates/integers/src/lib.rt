// Whole numbers and lists: definitions (specs/) and laws (proofs/), no code.
#![tactic(auto)]
