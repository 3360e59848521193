// Clocks of the commands in ms, where the caller gives none.
pub const COMMAND_CLOCK: u32 = 100;

pub const REGISTERS_CLOCK: u32 = 250;

pub const IN_LIST_PASSIVE_TARGET_CLOCK: u32 = 1000;

pub const TG_RESPONSE_TO_INITIATOR_CLOCK: u32 = 1000;

pub const IN_JUMP_FOR_DEP_CLOCK: u32 = 3000;
