// Inner: a plane's details held within a limit of a guide's: definitions (specs/) and laws (proofs/), no code.
#![tactic(auto)]
