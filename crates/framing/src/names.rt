// The numbers of frames by the manual's words, as specs/Names.antt has them, and the fixed bytes.

// Preamble and start code, and the last of their bytes.
pub const SOF_SIZE: usize = 3;

pub const SOF: [u8; SOF_SIZE] = [0x00, 0x00, 0xFF];

pub const START_END: u8 = 0xFF;

// Where LEN and LCS stand; an extended frame has FF there, twice.
pub const LEN_OFFSET: usize = 3;

pub const LCS_OFFSET: usize = 4;

pub const MARKER_BYTE: u8 = 0xFF;

// Where the two length bytes of an extended frame stand.
pub const FIRST_LEN_OFFSET: usize = 5;

pub const SECOND_LEN_OFFSET: usize = 6;

// Where the payload starts in a normal and in an extended frame.
pub const NORMAL_START: usize = 5;

pub const EXTENDED_START: usize = 8;

// DCS and postamble.
pub const ENDING_SIZE: usize = 2;

// The longest payload of a normal and of an extended frame.
pub const LONGEST_NORMAL: usize = 255;

pub const LONGEST_EXTENDED: usize = 65535;

// The shortest payload that no normal frame can carry.
pub const SHORTEST_EXTENDED: usize = 256;

// ACK; the error frame has as many bytes.
pub const ACK_SIZE: usize = 6;

pub const ACK_BYTES: [u8; ACK_SIZE] = [0x00, 0x00, 0xFF, 0x00, 0xFF, 0x00];

pub const ERROR_BYTES: [u8; ACK_SIZE] = [0x00, 0x00, 0xFF, 0xFF, 0xFF, 0x00];

// Where StatusByte tests for an error, and the byte that says so.
pub const STATUS_ERROR_OFFSET: usize = 5;

pub const STATUS_ERROR_BYTE: u8 = 0x7F;
