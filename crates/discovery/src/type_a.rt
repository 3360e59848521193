// detect_type_a: the command of each stage, and what follows each reply.
#![tactic(auto, using(stages::specs::Laws::decided), unfolding(errors::specs::Choice::pick, stages::specs::Stages::with_length, crate::specs::Decisions::type_a_command, crate::specs::Decisions::fifo_read, crate::specs::Decisions::rid_of, crate::specs::Decisions::rx_mode_read, crate::specs::Decisions::rid_failure))]

ghost use Rattle.std.specs.Prelude.{List, ℕ, ◌≤◌, length};
ghost use Rattle.protocol.specs.Names.{uid_offset};
ghost use Rattle.stages.specs.Decided.{Lays, DecisionRefines, Always, Commands};
ghost use Rattle.discovery.specs.Decisions.{card_bytes, card_found_of, sens_res, type_a_command, listed_a_of, fifo_read, listed_type1_of, rid_of, rx_mode_read, type_a_decision, rid_failure, type_a_failure};
ghost use Rattle.discovery.specs.Kinds.{rid_stage};
ghost use Rattle.stages.specs.Stages.{keep};
ghost use Rattle.stages.specs.Starts.{Starts};
ghost use Rattle.protocol.specs.Starts.{type_a_code};
ghost use Rattle.stages.specs.Bitrates.{code_for};
ghost use Rattle.discovery.specs.Firsts.{list_first, type_a_first};

use super::list::by_target;
use super::rates::{CODE_TYPE_1, chip_code, type_a_code};
use super::{TYPE_A_KIND, staged};
use chipset::initiator::{ONE_TARGET, TARGET_NUMBER};
use chipset::{ciu, clock, initiator, registers};
use errors::{Fault, Refusal};
use stages::put::DATA_LIMIT;
use stages::start::Start;
use stages::{Command, Decision, Layout, byte_or};
use targets::type_a::is_type2;

// The stages.
// Kept: numbers and no enum, since a stage stands in session memory, which is repr(C) and may hold any byte.
pub(crate) const LIST_STAGE: u8 = 0;

pub(crate) const FIFO_STAGE: u8 = 1;

const LIST_TYPE_1_STAGE: u8 = 2;

const RID_STAGE: u8 = 3;

pub(crate) const READ_RX_MODE_STAGE: u8 = 4;

pub(crate) const WRITE_RX_MODE_STAGE: u8 = 5;

// Stands in a UID where it goes on at the next cascade level.
const CASCADE_TAG: u8 = 0x88;

// What the FIFO holds where no SENS_RES came: the request.
const SENS_REQ: u8 = 0x26;

// Where a list's response has the target's data, and in it SENS_RES, SEL_RES and the UID.
pub(crate) const TARGET_OFFSET: usize = 2;

const SENS_RES_OFFSET: usize = 2;

const SENS_RES_SECOND: usize = SENS_RES_OFFSET + 1;

pub(crate) const SEL_RES_OFFSET: usize = 4;

pub(crate) const UID_OFFSET: usize = 6;

// The clock of the RID exchange in ms.
const RID_CLOCK: u32 = 100;

// A UID over 4 bytes gets 0x88 at 0; if then over 8, 0x88 at 4.
fn list(kind: u8, code: u8, uid: &[u8], command: &mut [u8; DATA_LIMIT]) -> Result<Start, Refusal>
    ensures { Starts result command.old command.new (list_first kind uid.now code) }
{
    if uid.len() <= 4 {
        return staged(kind, &[&[ONE_TARGET, code], uid], command);
    }
    if uid.len() <= 7 {
        return staged(kind, &[&[ONE_TARGET, code, CASCADE_TAG], uid], command);
    }
    let first = [ONE_TARGET, code, CASCADE_TAG];
    staged(
        kind,
        &[&first, &uid[..3], &[CASCADE_TAG], &uid[3..]],
        command,
    )
}

// Stage 0 of a kind that has Type A's stages.
pub(crate) fn detect(
    kind: u8,
    bitrate: &[u8],
    uid: &[u8],
    command: &mut [u8; DATA_LIMIT],
) -> Result<Start, Refusal>
    ensures { Starts result command.old command.new (code_for type_a_code bitrate.now (list_first kind uid.now)) }
{
    let code = chip_code(bitrate, type_a_code)?;
    list(kind, code, uid, command)
}

pub fn detect_type_a(
    bitrate: &[u8],
    uid: &[u8],
    command: &mut [u8; DATA_LIMIT],
) -> Result<Start, Refusal>
    ensures { Starts result command.old command.new (code_for type_a_code bitrate.now (type_a_first uid.now)) }
{
    detect(TYPE_A_KIND, bitrate, uid, command)
}

// RID's code.
const RID_CODE: u8 = 0x78;

// RID to the listed target, behind its code six bytes of 0.
const RID_DATA: [u8; 8] = [TARGET_NUMBER, RID_CODE, 0, 0, 0, 0, 0, 0];

// The command of a stage.
pub fn command(stage: u8) -> Command
    ensures { Commands result (type_a_command stage) }
{
    match stage {
        LIST_STAGE => Command::pending(
            initiator::IN_LIST_PASSIVE_TARGET_CODE,
            clock::IN_LIST_PASSIVE_TARGET_CLOCK,
        ),
        FIFO_STAGE => registers::read_single_register_command(ciu::CIU_FIFO_DATA),
        LIST_TYPE_1_STAGE => Command::fixed(
            initiator::IN_LIST_PASSIVE_TARGET_CODE,
            clock::IN_LIST_PASSIVE_TARGET_CLOCK,
            &[ONE_TARGET, CODE_TYPE_1],
        ),
        RID_STAGE => Command::fixed(initiator::IN_DATA_EXCHANGE_CODE, RID_CLOCK, &RID_DATA),
        READ_RX_MODE_STAGE => registers::read_single_register_command(ciu::CIU_RX_MODE),
        _ => Command::pending(registers::WRITE_REGISTER_CODE, clock::REGISTERS_CLOCK),
    }
}

// SENS_RES in the other order, SEL_RES and SDD_RES of a list.
pub(crate) fn card(list: &[u8]) -> Layout
    requires { uid_offset ≤ length list.now }
    ensures { (f : List ℕ) → Lays f list.now result (card_bytes list.now) }
{
    let head = [
        list[SENS_RES_SECOND],
        list[SENS_RES_OFFSET],
        list[SEL_RES_OFFSET],
    ];
    Layout::headed(&head, list, UID_OFFSET)
}

// A target was listed: of a Type 2 tag the RX mode is set before it is handed out.
fn card_found(list: &[u8]) -> Decision
    requires { uid_offset ≤ length list.now }
    ensures { (f : List ℕ) → DecisionRefines f list.now result (card_found_of list.now) }
{
    if is_type2(list[SEL_RES_OFFSET]) {
        Decision::Keep(READ_RX_MODE_STAGE, card(list))
    } else {
        Decision::Done(card(list))
    }
}

// detect_type_a: a target was listed, or none.
fn listed_a(response: &[u8]) -> Decision
    ensures { (f : List ℕ) → DecisionRefines f response.now result (listed_a_of response.now) }
{
    by_target(response, UID_OFFSET, Decision::Send(FIFO_STAGE), card_found)
}

// No SENS_RES came where the FIFO still holds the request.
fn fifo(response: &[u8]) -> Decision
    ensures { (f : List ℕ) → DecisionRefines f response.now result (fifo_read response.now) }
{
    if byte_or(response, 0, 0) == SENS_REQ {
        Decision::Nothing
    } else {
        Decision::Send(LIST_TYPE_1_STAGE)
    }
}

// SENS_RES of a Type 1 tag in the other order, nothing of a list that is too short for it.
fn sens_res(list: &[u8]) -> Layout
    ensures { (f : List ℕ) → Lays f list.now result (sens_res list.now) }
{
    if list.len() < SEL_RES_OFFSET {
        Layout::part(0, 0)
    } else {
        Layout::headed(
            &[list[SENS_RES_SECOND], list[SENS_RES_OFFSET]],
            list,
            list.len(),
        )
    }
}

// A Type 1 tag was listed.
fn type1_found(list: &[u8]) -> Decision
    ensures { (f : List ℕ) → DecisionRefines f list.now result (keep rid_stage (sens_res list.now)) }
{
    Decision::Keep(RID_STAGE, sens_res(list))
}

// try_type1_detection: a target was listed, or none.
fn listed_type1(response: &[u8]) -> Decision
    ensures { (f : List ℕ) → DecisionRefines f response.now result (listed_type1_of response.now) }
{
    by_target(response, 2, Decision::Nothing, type1_found)
}

// The RID reply. A status other than 0 is none.
fn rid(found: &[u8], response: &[u8]) -> Decision
    ensures { DecisionRefines found.now response.now result (rid_of found.now response.now) }
{
    let Some(status) = response.first() else {
        return Decision::Nothing;
    };
    if *status % initiator::MORE_BIT != 0 {
        return Decision::Nothing;
    }
    if found.len() < 2 {
        return Decision::Refused(Fault::ShortResponse);
    }
    Decision::Type1(Layout::behind(2, 1, response.len() - 1))
}

// The RX mode of a Type 2 tag has the CRC check switched off.
fn rx_mode(response: &[u8]) -> Decision
    ensures { (f : List ℕ) → DecisionRefines f response.now result (rx_mode_read response.now) }
{
    let Some(rx_mode) = response.first() else {
        return Decision::Refused(Fault::ShortResponse);
    };
    let [high, low] = ciu::CIU_RX_MODE.to_be_bytes();
    Decision::Put(WRITE_RX_MODE_STAGE, [high, low, *rx_mode % ciu::RX_CRC_EN])
}

// What follows a response; `found` are the bytes that were kept of an earlier one.
#[tactic(auto, using(stages::specs::Laws::decided), unfolding(errors::specs::Choice::pick, crate::specs::Decisions::type_a_decision))]
pub fn decided(stage: u8, found: &[u8], response: &[u8]) -> Decision
    ensures { DecisionRefines found.now response.now result (type_a_decision stage found.now response.now) }
{
    match stage {
        LIST_STAGE => listed_a(response),
        FIFO_STAGE => fifo(response),
        LIST_TYPE_1_STAGE => listed_type1(response),
        RID_STAGE => rid(found, response),
        READ_RX_MODE_STAGE => rx_mode(response),
        _ => registers::found_written(found, response),
    }
}

// A status is none in the RID exchange.
fn rid_failed(fault: Fault) -> Decision
    ensures { Always result (rid_failure fault) }
{
    let Fault::Status(_) = fault else {
        return Decision::Refused(fault);
    };
    Decision::Nothing
}

// What follows a command that failed.
#[tactic(auto, using(stages::specs::Laws::decided), unfolding(errors::specs::Choice::pick, crate::specs::Decisions::type_a_failure))]
pub fn failed(stage: u8, fault: Fault) -> Decision
    ensures { Always result (type_a_failure stage fault) }
{
    match stage {
        FIFO_STAGE => Decision::Send(LIST_TYPE_1_STAGE),
        RID_STAGE => rid_failed(fault),
        _ => Decision::Refused(fault),
    }
}
