// The chip's numbers: limits of a field, the layout of its memory, and the command set's codes and bytes.

// The cards of a field, the stated replies of a card, and with Type B's to WUPB.
pub const CARD_LIMIT: usize = 4;

pub const STATED_LIMIT: usize = 8;

pub const REPLY_LIMIT: usize = 9;

// The bytes of list data, of a reply, and of what it replies to.
pub const LIST_DATA_LIMIT: usize = 1010;

pub const REPLY_BYTES_LIMIT: usize = 1011;

pub const SENT_BYTES_LIMIT: usize = 512;

// The bytes of a packet, and of a response behind D5 and its code.
pub const PACKET_SIZE: usize = 1024;

pub const RESPONSE_LIMIT: usize = 1012;

// A text in memory: its length in two bytes, low byte first, and its bytes.
pub const TEXT_OFFSET: usize = 2;

// A card in memory: kind, BrTy, how many replies it has, and its list data as a text.
pub const CARD_SIZE: usize = 1015;

pub const BR_TY_OFFSET: usize = 1;

pub const REPLY_COUNT_OFFSET: usize = 2;

pub const LIST_DATA_OFFSET: usize = 3;

// A text of bytes sent, and of a reply.
pub const SENT_SIZE: usize = 514;

pub const REPLY_SIZE: usize = 1013;

// The memory of a field: cards, and for each card the bytes sent and the replies to them, nine of each.
pub const PLACES: usize = CARD_LIMIT * REPLY_LIMIT;

pub const CARDS_SIZE: usize = CARD_LIMIT * CARD_SIZE;

pub const SENT_MEMORY_SIZE: usize = PLACES * SENT_SIZE;

pub const REPLY_MEMORY_SIZE: usize = PLACES * REPLY_SIZE;

// The kinds in memory.
// Kept: numbers and no enum, since they stand in the chip's memory, which C lends.
pub const TYPE_A_NUMBER: u8 = 0;

pub const TYPE_B_NUMBER: u8 = 1;

pub const TYPE_F_NUMBER: u8 = 2;

pub const DEP_NUMBER: u8 = 3;

// The manual's codes of bitrates, BrTy and BR, in memory too; the last of them.
pub const CODE_106A: u8 = 0;

pub const CODE_212F: u8 = 1;

pub const CODE_424F: u8 = 2;

pub const CODE_106B: u8 = 3;

pub const LAST_BR_TY: u8 = CODE_106B;

// What stands for the code of a bitrate that no search has.
pub const NO_BR_TY: u8 = 0xFF;

// The command codes.
pub const GET_FIRMWARE_VERSION_CODE: u8 = 0x02;

pub const READ_REGISTER_CODE: u8 = 0x06;

pub const WRITE_REGISTER_CODE: u8 = 0x08;

pub const SET_PARAMETERS_CODE: u8 = 0x12;

pub const RESET_MODE_CODE: u8 = 0x18;

pub const RF_CONFIGURATION_CODE: u8 = 0x32;

pub const IN_DATA_EXCHANGE_CODE: u8 = 0x40;

pub const IN_COMMUNICATE_THRU_CODE: u8 = 0x42;

pub const IN_LIST_PASSIVE_TARGET_CODE: u8 = 0x4A;

pub const IN_JUMP_FOR_DEP_CODE: u8 = 0x56;

// GetFirmwareVersion's response: IC, Ver, Rev, Support.
pub const FIRMWARE_VERSION: [u8; 4] = [0x33, 0x01, 0x30, 0x07];

// Status bytes.
// Kept: status bytes of the manual, which stand in packets.
pub const SUCCESS_STATUS: u8 = 0x00;

pub const TIMEOUT_STATUS: u8 = 0x01;

// InListPassiveTarget: how many targets were found, and the number of the one that was.
pub const NO_TARGET: u8 = 0;

pub const ONE_TARGET: u8 = 1;

pub const TARGET_NUMBER: u8 = 1;

// InListPassiveTarget's data: MaxTg, BrTy, and the initiator data, whose length tells the types apart. InJumpForDEP has BR where BrTy is.
pub const SEARCH_BR_TY_OFFSET: usize = 1;

pub const INITIATOR_OFFSET: usize = 2;

pub const TYPE_A_INITIATOR: usize = 0;

pub const TYPE_B_INITIATOR: usize = 1;

pub const TYPE_F_INITIATOR: usize = 5;

// Registers, and what they read.
pub const CIU_FIFO_DATA: usize = 0x6339;

pub const CIU_TX_CONTROL: usize = 0x6304;

pub const SENS_REQ: u8 = 0x26;

pub const TX_CONTROL_ON: u8 = 0x83;

pub const TX_CONTROL_OFF: u8 = 0x80;

pub const OTHER_REGISTER: u8 = 0x00;

// RFConfiguration's item of the RF field.
pub const RF_FIELD_ITEM: u8 = 0x01;

// WUPB, to which a Type B card replies.
pub const WUPB: [u8; 3] = [0x05, 0x00, 0x08];

// The payload of the manual's error frame.
pub const ERROR_IDENTIFIER: u8 = 0x7F;

// The fewest list data for the discoveries, and the places of SEL_RES and of Type B's protocol byte in it.
pub const TYPE_A_NEED: usize = 4;

pub const TYPE_B_NEED: usize = 11;

pub const TYPE_F_NEED: usize = 18;

pub const SEL_RES_OFFSET: usize = 2;

pub const PROTOCOL_OFFSET: usize = 10;
