// detect_type_f: the command of each stage, and what follows each reply.
#![tactic(auto, using(stages::specs::Laws::decided), unfolding(errors::specs::Choice::pick, stages::specs::Stages::with_length, crate::specs::Decisions::tx_control_read, crate::specs::Decisions::polled, crate::specs::Decisions::type_f_command))]

ghost use Rattle.std.specs.Prelude.{List, ℕ};
ghost use Rattle.stages.specs.Decided.{DecisionRefines, Commands};
ghost use Rattle.discovery.specs.Decisions.{type_f_command, tx_control_read, polled as polled_of, type_f_decision};
ghost use Rattle.stages.specs.Starts.{Starts};
ghost use Rattle.protocol.specs.Starts.{type_f_code};
ghost use Rattle.protocol.specs.Discovery.{sensf_req};
ghost use Rattle.stages.specs.Bitrates.{code_for};
ghost use Rattle.discovery.specs.Firsts.{type_f_first};

use super::rates::{chip_code, type_f_code};
use super::{TYPE_F_KIND, staged};
use chipset::general::{FIELD_ON, RF_FIELD_ITEM};
use chipset::initiator::ONE_TARGET;
use chipset::response::from;
use chipset::{ciu, clock, general, initiator, registers};
use errors::{Fault, Refusal};
use stages::put::DATA_LIMIT;
use stages::start::Start;
use stages::{Command, Decision, byte_or};

// TX control is read first; the poll with its SENSF_REQ is put by.
pub fn detect_type_f(
    bitrate: &[u8],
    system_code: u16,
    request_code: u8,
    time_slots: u8,
    command: &mut [u8; DATA_LIMIT],
) -> Result<Start, Refusal>
    ensures { Starts result command.old command.new (code_for type_f_code bitrate.now (type_f_first (sensf_req system_code request_code time_slots))) }
{
    let code = chip_code(bitrate, type_f_code)?;
    let [high, low] = system_code.to_be_bytes();
    let head = [
        ONE_TARGET,
        code,
        SENSF_REQ_CODE,
        high,
        low,
        request_code,
        time_slots,
    ];
    staged(TYPE_F_KIND, &[&head], command)
}

// SENSF_REQ's code.
pub(crate) const SENSF_REQ_CODE: u8 = 0x00;

// The stages.
// Kept: numbers and no enum, since a stage stands in session memory, which is repr(C) and may hold any byte.
pub(crate) const FIELD_STAGE: u8 = 0;

const RF_ON_STAGE: u8 = 1;

const POLL_STAGE: u8 = 2;

// The field is on for so long before a card is polled.
const FIELD_PAUSE_TIME: u32 = 20400;

// The command of a stage.
pub fn command(stage: u8) -> Command
    ensures { Commands result (type_f_command stage) }
{
    match stage {
        FIELD_STAGE => registers::read_single_register_command(ciu::CIU_TX_CONTROL),
        RF_ON_STAGE => Command::fixed(
            general::RF_CONFIGURATION_CODE,
            clock::COMMAND_CLOCK,
            &[RF_FIELD_ITEM, FIELD_ON],
        ),
        _ => Command::pending(
            initiator::IN_LIST_PASSIVE_TARGET_CODE,
            clock::IN_LIST_PASSIVE_TARGET_CLOCK,
        ),
    }
}

// The RF field is on, or is switched on.
fn tx_control(response: &[u8]) -> Decision
    ensures { (f : List ℕ) → DecisionRefines f response.now result (tx_control_read response.now) }
{
    let Some(tx_control) = response.first() else {
        return Decision::Refused(Fault::ShortResponse);
    };
    if *tx_control % ciu::TX_RF_EN == 0 {
        Decision::Send(RF_ON_STAGE)
    } else {
        Decision::Send(POLL_STAGE)
    }
}

// Where a list's response has IDm, and where PMm ends.
pub(crate) const LISTED_IDM_OFFSET: usize = 4;

const PMM_END: usize = 20;

// IDm, PMm and the request data of a SENSF_RES.
fn polled(response: &[u8]) -> Decision
    ensures { (f : List ℕ) → DecisionRefines f response.now result (polled_of response.now) }
{
    if byte_or(response, 0, 0) == 0 {
        return Decision::Refused(Fault::NoCard);
    }
    if response.len() < PMM_END {
        Decision::Refused(Fault::ShortResponse)
    } else {
        from(response, LISTED_IDM_OFFSET)
    }
}

// What follows a response.
#[tactic(auto, using(stages::specs::Laws::decided), unfolding(errors::specs::Choice::pick, crate::specs::Decisions::type_f_decision))]
pub fn decided(stage: u8, response: &[u8]) -> Decision
    ensures { (f : List ℕ) → DecisionRefines f response.now result (type_f_decision stage response.now) }
{
    match stage {
        FIELD_STAGE => tx_control(response),
        RF_ON_STAGE => Decision::Pause(FIELD_PAUSE_TIME, POLL_STAGE),
        _ => polled(response),
    }
}
