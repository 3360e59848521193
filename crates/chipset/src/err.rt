// Status bytes (`err` of chipset.rs).
pub const TIMEOUT_STATUS: u8 = 0x01;

pub const RF_NOT_ACTIVATED: u8 = 0x0A;

pub const REGISTER_WRITE_FAILED: u8 = 0xFE;

// Of an empty response.
pub const NO_DATA: u8 = 0xFF;
