// detect_type_b: the command of each stage, and what follows each reply.
#![tactic(auto, using(stages::specs::Laws::decided), unfolding(errors::specs::Choice::pick, stages::specs::Stages::with_length, crate::specs::Decisions::type_b_command, crate::specs::Decisions::iso_dep_of, crate::specs::Decisions::woken_up, crate::specs::Decisions::type_b_failure))]

ghost use Rattle.std.specs.Prelude.{List, ℕ, ◌+◌, ◌≤◌, length, get_or};
ghost use Rattle.stages.specs.Decided.{DecisionRefines, Always, Commands};
ghost use Rattle.discovery.specs.Decisions.{type_b_command, iso_dep_of, listed_b_of, woken_up, type_b_decision, type_b_failure};
ghost use Rattle.protocol.specs.Names.{protocol_offset};
ghost use Rattle.stages.specs.Starts.{Starts};
ghost use Rattle.protocol.specs.Starts.{type_b_code};
ghost use Rattle.stages.specs.Bitrates.{code_for};
ghost use Rattle.discovery.specs.Firsts.{type_b_first};

use super::list::by_target;
use super::rates::{chip_code, type_b_code};
use super::type_a::LIST_STAGE;
use super::{TYPE_B_KIND, staged};
use chipset::initiator::ONE_TARGET;
use chipset::response::from;
use chipset::{clock, err, initiator};
use errors::{Fault, Refusal};
use stages::put::DATA_LIMIT;
use stages::start::Start;
use stages::{Command, Decision, byte_or};

pub fn detect_type_b(
    bitrate: &[u8],
    sensb_req: &[u8],
    command: &mut [u8; DATA_LIMIT],
) -> Result<Start, Refusal>
    ensures { Starts result command.old command.new (code_for type_b_code bitrate.now (type_b_first (get_or sensb_req.now 0 0))) }
{
    let code = chip_code(bitrate, type_b_code)?;
    let head = [ONE_TARGET, code, byte_or(sensb_req, 0, 0)];
    staged(TYPE_B_KIND, &[&head], command)
}

// The stages behind the list.
// Kept: numbers and no enum, since a stage stands in session memory, which is repr(C) and may hold any byte.
const DESELECT_STAGE: u8 = 1;

const WAKE_UP_STAGE: u8 = 2;

// The clock of deselect and wake-up in ms.
const TYPE_B_CLOCK: u32 = 500;

// S(DESELECT).
const DESELECT_CODE: u8 = 0xC2;

// WUPB: its code and, behind the AFI, its parameter.
const WUPB_CODE: u8 = 0x05;

const WUPB_PARAMETER: u8 = 0x08;

// The command of a stage.
pub fn command(stage: u8) -> Command
    ensures { Commands result (type_b_command stage) }
{
    match stage {
        LIST_STAGE => Command::pending(
            initiator::IN_LIST_PASSIVE_TARGET_CODE,
            clock::IN_LIST_PASSIVE_TARGET_CLOCK,
        ),
        DESELECT_STAGE => Command::fixed(
            initiator::IN_COMMUNICATE_THRU_CODE,
            TYPE_B_CLOCK,
            &[DESELECT_CODE],
        ),
        _ => Command::pending(initiator::IN_COMMUNICATE_THRU_CODE, TYPE_B_CLOCK),
    }
}

// A tag that is capable of ISO-DEP, by its protocol byte, is deselected; the wake-up is put by, with the AFI of the list.
fn iso_dep(protocol: u8, afi: u8) -> Decision
    ensures { (f b : List ℕ) → DecisionRefines f b result (iso_dep_of protocol afi) }
{
    if protocol % 2 == 1 && protocol / 8 % 2 == 0 {
        Decision::Put(DESELECT_STAGE, [WUPB_CODE, afi, WUPB_PARAMETER])
    } else {
        Decision::Nothing
    }
}

// Where a list's response has the protocol byte of ATQB.
const PROTOCOL_OFFSET: usize = 12;

const PROTOCOL_END: usize = PROTOCOL_OFFSET + 1;

// detect_type_b: a target was listed, or none.
fn listed_b(pending: &[u8], response: &[u8]) -> Decision
    ensures { (f : List ℕ) → DecisionRefines f response.now result (listed_b_of pending.now response.now) }
{
    let afi = byte_or(pending, 2, 0);
    by_target(
        response,
        PROTOCOL_END,
        Decision::Nothing,
        |list: &[u8]|
            requires { protocol_offset + 1 ≤ length list.now }
            ensures { (f : List ℕ) → DecisionRefines f list.now result (iso_dep_of (get_or list.now protocol_offset 0) afi) }
        { iso_dep(list[PROTOCOL_OFFSET], afi) },
    )
}

// The reply to the wake-up.
fn woken(response: &[u8]) -> Decision
    ensures { (f : List ℕ) → DecisionRefines f response.now result (woken_up response.now) }
{
    if byte_or(response, 0, err::NO_DATA) == 0 {
        from(response, 1)
    } else {
        Decision::Nothing
    }
}

// What follows a response; `pending` is the pending command.
#[tactic(auto, using(stages::specs::Laws::decided), unfolding(errors::specs::Choice::pick, crate::specs::Decisions::type_b_decision))]
pub fn decided(stage: u8, pending: &[u8], response: &[u8]) -> Decision
    ensures { (f : List ℕ) → DecisionRefines f response.now result (type_b_decision stage pending.now response.now) }
{
    match stage {
        LIST_STAGE => listed_b(pending, response),
        DESELECT_STAGE => Decision::Send(WAKE_UP_STAGE),
        _ => woken(response),
    }
}

// The outcome of the deselect is ignored, and a wake-up that fails is none.
pub fn failed(stage: u8, fault: Fault) -> Decision
    ensures { Always result (type_b_failure stage fault) }
{
    match stage {
        DESELECT_STAGE => Decision::Send(WAKE_UP_STAGE), // whatever came of it
        WAKE_UP_STAGE => Decision::Nothing,
        _ => Decision::Refused(fault),
    }
}
