// The sheet of a namespace as definitions (specs/), and promise 3 (proofs/). It has no code.
#![tactic(auto)]
