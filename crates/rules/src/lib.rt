// Document 01's rules as definitions (specs/), and what is proved of them (proofs/). It has no code.
#![tactic(auto)]
