// Document 02, N10: the chip's end of the wire, with a field of cards.
#![tactic(auto)]

pub mod add;
mod admit;
pub mod chip;
mod memory;
pub mod names;
mod range;
mod response;
mod search;

pub use chip_protocol::Kind;
