// The crate is its specs and proofs: definitions and theorems alone. proofs/Demand3.antt has the main theorem.
#![tactic(auto)]
