// Document 02, N14: which end of a fault script is the shortest that still shows its fault. The crate is its specs: specs/Answer.antt has
// the definition and the theorem.
#![tactic(auto)]
