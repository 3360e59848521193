// Addresses of registers (`ciu` of chipset.rs).
pub const CIU_MODE: u16 = 0x6301;

pub const CIU_RX_MODE: u16 = 0x6303;

// CIU_RX_MODE's highest bit switches the CRC check on.
pub const RX_CRC_EN: u8 = 128;

pub const CIU_TX_CONTROL: u16 = 0x6304;

// CIU_TX_CONTROL's two lowest bits switch the field on.
pub const TX_RF_EN: u8 = 4;

pub const CIU_FIFO_DATA: u16 = 0x6339;

// RFCfg in RAM-07, for the initial state as a target.
pub const RF_CFG_RAM07: u16 = 0x0328;
