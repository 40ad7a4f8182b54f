// Inner: planes and the lists that hold them: definitions (specs/) and laws (proofs/), no code.
#![tactic(auto)]
