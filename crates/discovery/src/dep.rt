// detect_dep: the command of each stage, and what follows each reply.
#![tactic(auto, using(stages::specs::Laws::decided), unfolding(errors::specs::Choice::pick, stages::specs::Stages::with_length, crate::specs::Decisions::dep_command, crate::specs::Decisions::no_partner_of))]

ghost use Rattle.std.specs.Prelude.{List, ℕ, ◌≡◌, [], ◌+◌, ◌*◌, ◌≤◌, length, take, drop};
ghost use Rattle.stages.specs.Decided.{DecisionRefines, Always, Commands};
ghost use Rattle.discovery.specs.Decisions.{dep_command, no_partner_of, jumped_to, dep_decision, jump_failure, dep_failure};
ghost use Rattle.stages.specs.Starts.{Starts};
ghost use Rattle.protocol.specs.Arguments.{bit, shortest_atr_req, longest_atr_req, nfcid3_size, nfcid3_offset};
ghost use Rattle.discovery.specs.Firsts.{dep_first, dep_asserted};

use super::rates::{chip_code, dep_code};
use super::{DEP_KIND, staged};
use chipset::{ciu, clock, err, general, initiator, registers};
use errors::{Fault, Refusal};
use stages::put::DATA_LIMIT;
use stages::start::Start;
use stages::{Command, Decision, Layout, byte_or};

// An ATR_REQ without general bytes, and the longest.
const SHORTEST_ATR_REQ: usize = 16;

const LONGEST_ATR_REQ: usize = 64;

// NFCID3 in ATR_REQ.
const NFCID3_OFFSET: usize = 2;

const NFCID3_END: usize = 12;

// What InJumpForDEP is given: NFCID3, and the general bytes where ATR_REQ has some.
fn given(atr_req: &[u8]) -> u8
    requires { shortest_atr_req ≤ length atr_req.now }
    ensures { result ≡ 2 * bit (take nfcid3_size (drop nfcid3_offset atr_req.now)) + 4 * bit (drop shortest_atr_req atr_req.now) }
{
    if atr_req.len() == SHORTEST_ATR_REQ {
        2
    } else {
        6
    }
}

// The mode of the jump.
const ACTIVE: u8 = 1;

// The time-outs are set first; the jump is put by.
fn jump(code: u8, atr_req: &[u8], command: &mut [u8; DATA_LIMIT]) -> Result<Start, Refusal>
    requires { (shortest_atr_req ≤ length atr_req.now) × (length atr_req.now ≤ longest_atr_req) }
    ensures { Starts result command.old command.new (dep_first atr_req.now code) }
{
    let head = [ACTIVE, code, given(atr_req)];
    let nfcid3 = &atr_req[NFCID3_OFFSET..NFCID3_END];
    let general_bytes = &atr_req[SHORTEST_ATR_REQ..];
    staged(DEP_KIND, &[&head, nfcid3, general_bytes], command)
}

pub fn detect_dep(
    bitrate: &[u8],
    atr_req: &[u8],
    command: &mut [u8; DATA_LIMIT],
) -> Result<Start, Refusal>
    ensures { Starts result command.old command.new (dep_asserted bitrate.now atr_req.now) }
{
    if atr_req.len() < SHORTEST_ATR_REQ || LONGEST_ATR_REQ < atr_req.len() {
        return Err(Refusal::BadArgument);
    }
    let code = chip_code(bitrate, dep_code)?;
    jump(code, atr_req, command)
}

// The stages.
// Kept: numbers and no enum, since a stage stands in session memory, which is repr(C) and may hold any byte.
const DEP_TIMEOUTS_STAGE: u8 = 0;

const JUMP_STAGE: u8 = 1;

const WRITE_MODE_STAGE: u8 = 2;

// CIU_Mode with the detect-sync bit off.
const NO_DETECT_SYNC: u8 = 0x3B;

// The first two bytes of ATR_RES.
const ATR_RES_CMD0: u8 = 0xD5;

const ATR_RES_CMD1: u8 = 0x01;

// The command of a stage.
pub fn command(stage: u8) -> Command
    ensures { Commands result (dep_command stage) }
{
    match stage {
        DEP_TIMEOUTS_STAGE => Command::fixed(
            general::RF_CONFIGURATION_CODE,
            clock::COMMAND_CLOCK,
            &general::ATR_RES_TIMEOUTS,
        ),
        JUMP_STAGE => Command::pending(
            initiator::IN_JUMP_FOR_DEP_CODE,
            clock::IN_JUMP_FOR_DEP_CLOCK,
        ),
        _ => registers::write_single_register_command(ciu::CIU_MODE, NO_DETECT_SYNC),
    }
}

// A time-out, or a field that was not switched on in time, is none.
fn no_partner(status: u8) -> Decision
    ensures { (f b : List ℕ) → DecisionRefines f b result (no_partner_of status) }
{
    match status {
        err::TIMEOUT_STATUS | err::RF_NOT_ACTIVATED => Decision::Nothing,
        _ => Decision::Refused(Fault::Status(status)),
    }
}

// The reply to the jump: D5 01 and its rest are kept.
#[tactic(auto, using(stages::specs::Laws::decided), unfolding(errors::specs::Choice::pick, stages::specs::Stages::with_length, crate::specs::Decisions::jumped_to))]
fn jumped(response: &[u8]) -> Decision
    ensures { (f : List ℕ) → DecisionRefines f response.now result (jumped_to response.now) }
{
    let status = byte_or(response, 0, err::NO_DATA);
    if status != 0 {
        return no_partner(status);
    }
    if response.len() < 2 {
        return Decision::Refused(Fault::ShortResponse);
    }
    let atr_res = Layout::headed(&[ATR_RES_CMD0, ATR_RES_CMD1], response, 2);
    Decision::Keep(WRITE_MODE_STAGE, atr_res)
}

// What follows a response; `found` are the bytes that were kept of an earlier one.
#[tactic(auto, using(stages::specs::Laws::decided), unfolding(errors::specs::Choice::pick, crate::specs::Decisions::dep_decision))]
pub fn decided(stage: u8, found: &[u8], response: &[u8]) -> Decision
    ensures { DecisionRefines found.now response.now result (dep_decision stage found.now response.now) }
{
    match stage {
        DEP_TIMEOUTS_STAGE => Decision::Send(JUMP_STAGE),
        JUMP_STAGE => jumped(response),
        _ => registers::found_written(found, response),
    }
}

// A status of InJumpForDEP says why there is no partner.
#[tactic(auto, using(stages::specs::Laws::decided), unfolding(errors::specs::Choice::pick, crate::specs::Decisions::jump_failure))]
fn jump_failed(fault: Fault) -> Decision
    ensures { Always result (jump_failure fault) }
{
    let Fault::Status(status) = fault else {
        return Decision::Refused(fault);
    };
    no_partner(status)
}

// What follows a command that failed.
#[tactic(auto, using(stages::specs::Laws::decided), unfolding(errors::specs::Choice::pick, crate::specs::Decisions::dep_failure))]
pub fn failed(stage: u8, fault: Fault) -> Decision
    ensures { Always result (dep_failure stage fault) }
{
    match stage {
        JUMP_STAGE => jump_failed(fault),
        _ => Decision::Refused(fault),
    }
}
