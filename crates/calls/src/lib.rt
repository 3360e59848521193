// The calls by their kinds: the command of each stage, and what follows each reply. How each starts, by its number, is in start.rt.
#![tactic(auto)]

pub mod start;

ghost use Rattle.std.specs.Prelude.{List, ◌≡◌, ℕ};
ghost use Rattle.stages.specs.Decided.{DecisionRefines, Sends};
ghost use Rattle.calls.specs.Tables.{command_of, is_reset_of, decided_of, failed_of};

use chipset::{
    ALL_BYTES_KIND, EXCHANGED_DATA_KIND, FIRST_BYTE_KIND, INITIATOR_COMMAND_KIND, JUMP_KIND,
    LISTED_TARGET_KIND, REGISTERS_WRITTEN_KIND, RESET_MODE_KIND, STATUS_KIND, TARGET_STATUS_KIND,
    THRU_KIND, VERSION_KIND, general, initiator, registers, response, target,
};
use device::blocks::{READ_BLOCKS_KIND, WRITE_BLOCKS_KIND};
use device::transceive::{TYPE_1_KIND, TYPE_2_KIND};
use device::{OPENING_KIND, RF_CFG_STAGE, blocks, transceive};
use discovery::poll_type_f::Codes;
use discovery::{
    DEP_KIND, POLL_TYPE_F_KIND, TYPE_A_KIND, TYPE_A_SPLIT_KIND, TYPE_B_KIND, TYPE_F_KIND, dep,
    poll_type_f, type_a, type_a_split, type_b, type_f,
};
use errors::Fault;
use stages::{Command, Decision};

// No call runs; the last kind; and the last stage of the call that has most, the opening.
// Kept: numbers and no enum, since kind and stage stand in session memory, which is repr(C) and may hold any byte.
pub const NO_CALL_KIND: u8 = 0;

pub const LAST_KIND: u8 = WRITE_BLOCKS_KIND;

pub const LAST_STAGE: u8 = RF_CFG_STAGE;

// The command of a stage; `cursor` is where the call stands in a list of its own, and `pending` is the pending command.
#[tactic(auto, using(crate::proofs::Rules::by_kind), unfolding(errors::specs::Choice::pick, crate::specs::Tables::command_of))]
pub fn command(kind: u8, stage: u8, cursor: u8, pending: &[u8]) -> Command
    ensures { Sends result pending.now (command_of kind stage cursor pending.now) }
{
    match kind {
        OPENING_KIND => device::command(stage),
        RESET_MODE_KIND => general::reset_mode_command(),
        TYPE_A_KIND => type_a::command(stage),
        TYPE_B_KIND => type_b::command(stage),
        TYPE_F_KIND => type_f::command(stage),
        POLL_TYPE_F_KIND => poll_type_f::command(stage, cursor, pending),
        TYPE_A_SPLIT_KIND => type_a::command(stage),
        _ => dep::command(stage),
    }
}

// The command of a stage is a reset's: behind its exchange follow ACK and a pause, whatever came of it.
#[tactic(auto, using(crate::proofs::Rules::by_kind), unfolding(errors::specs::Choice::pick, crate::specs::Tables::is_reset_of))]
pub fn is_reset(kind: u8, stage: u8) -> bool
    ensures { result ≡ is_reset_of kind stage }
{
    if kind == OPENING_KIND {
        device::is_reset(stage)
    } else {
        kind == RESET_MODE_KIND
    }
}

// What follows the response to a stage's command, or its reset; `found` are the bytes that were kept of earlier responses.
// Kept: parameters and no struct, since the engine has each of them by itself, in a repr(C) call and in arrays beside it.
#[tactic(auto, using(crate::proofs::Rules::by_kind), unfolding(errors::specs::Choice::pick, crate::specs::Tables::decided_of))]
pub fn decided(
    kind: u8,
    stage: u8,
    cursor: u8,
    pending: &[u8],
    found: &[u8],
    response: &[u8],
) -> Decision
    ensures { DecisionRefines found.now response.now result (decided_of kind stage cursor pending.now found.now response.now) }
{
    let codes = Codes {
        cursor,
        pending,
        found,
    };
    match kind {
        OPENING_KIND => device::decided(stage, found, response),
        VERSION_KIND => general::get_firmware_version_response(response),
        ALL_BYTES_KIND => response::from(response, 0),
        REGISTERS_WRITTEN_KIND => registers::write_register_response(response),
        FIRST_BYTE_KIND => registers::read_single_register_response(response),
        LISTED_TARGET_KIND => initiator::in_list_passive_target_response(response),
        EXCHANGED_DATA_KIND => initiator::in_data_exchange_response(response),
        THRU_KIND => initiator::in_communicate_thru_response(response),
        JUMP_KIND => initiator::in_jump_for_dep_response(response),
        STATUS_KIND => target::status_response(response),
        INITIATOR_COMMAND_KIND => target::tg_get_initiator_command_response(response),
        TARGET_STATUS_KIND => target::tg_get_target_status_response(response),
        TYPE_2_KIND => transceive::type2_response(response),
        TYPE_1_KIND => transceive::type1_response(response),
        TYPE_A_KIND => type_a::decided(stage, found, response),
        TYPE_B_KIND => type_b::decided(stage, pending, response),
        TYPE_F_KIND => type_f::decided(stage, response),
        DEP_KIND => dep::decided(stage, found, response),
        POLL_TYPE_F_KIND => codes.decided(stage, response),
        TYPE_A_SPLIT_KIND => type_a_split::decided(stage, cursor, found, response),
        READ_BLOCKS_KIND => blocks::read_response(pending, response),
        WRITE_BLOCKS_KIND => blocks::write_response(pending, response),
        _ => response::part(0, 0),
    }
}

// What follows a command that failed.
// Kept: parameters and no struct, as of `decided`.
#[tactic(auto, using(crate::proofs::Rules::by_kind), unfolding(errors::specs::Choice::pick, crate::specs::Tables::failed_of))]
pub fn failed(
    kind: u8,
    stage: u8,
    cursor: u8,
    pending: &[u8],
    found: &[u8],
    fault: Fault,
) -> Decision
    ensures { (b : List ℕ) → DecisionRefines found.now b result (failed_of kind stage cursor pending.now found.now fault) }
{
    let codes = Codes {
        cursor,
        pending,
        found,
    };
    match kind {
        TYPE_A_KIND => type_a::failed(stage, fault),
        TYPE_B_KIND => type_b::failed(stage, fault),
        DEP_KIND => dep::failed(stage, fault),
        POLL_TYPE_F_KIND => codes.failed(fault),
        TYPE_A_SPLIT_KIND => type_a::failed(stage, fault),
        _ => Decision::Refused(fault),
    }
}
