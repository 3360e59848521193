// The public commands of chipset.rs: the data that each sends, and what its response comes to.
#![tactic(auto)]

pub mod ciu;
pub mod clock;
pub mod err;
pub mod general;
pub mod initiator;
pub mod registers;
pub mod response;
pub mod target;

// The kinds of a call of one command, by what its response comes to. That of reset_mode is not looked at.
// Kept: a kind is a byte of the session, where any byte may stand, and the theorems speak of every number.
pub const VERSION_KIND: u8 = 2;

pub const RESET_MODE_KIND: u8 = 3;

pub const NO_BYTES_KIND: u8 = 4;

pub const ALL_BYTES_KIND: u8 = 5;

pub const REGISTERS_WRITTEN_KIND: u8 = 6;

pub const FIRST_BYTE_KIND: u8 = 7;

pub const LISTED_TARGET_KIND: u8 = 8;

pub const EXCHANGED_DATA_KIND: u8 = 9;

pub const THRU_KIND: u8 = 10;

pub const JUMP_KIND: u8 = 11;

pub const STATUS_KIND: u8 = 12;

pub const INITIATOR_COMMAND_KIND: u8 = 13;

pub const TARGET_STATUS_KIND: u8 = 14;
