// The crate is its specs: N10's sentences of the engine, the C interface, and the chip's own code (specs/Readers.antt, specs/ChipCode.antt).
#![tactic(auto)]
