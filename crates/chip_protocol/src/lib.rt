// Document 02, N10: the chip's end of the wire. The crate is its specs, definitions and proofs: the chip with its field of cards, and N10's sentences
// (specs/Claim.antt). The code is in simulated_chip.
#![tactic(auto)]

// The kinds of discovery: Type A, B and F, and a DEP partner.
#[derive(Clone, Copy, Debug, PartialEq, Eq)]
pub enum Kind {
    TypeA,
    TypeB,
    TypeF,
    Dep,
}
