// Document 02, N9: the list of present cards, kept round by round.
#![tactic(auto)]

pub mod list;
mod lists;
mod order;
mod put;
mod range;
mod records;

pub use range::{IDENTIFIER_LIMIT, LAST_BITRATE, LAST_CARD_KIND};
pub use records::{BITRATE_OFFSET, LENGTH_OFFSET, RECORD_SIZE, Record, first_records};
