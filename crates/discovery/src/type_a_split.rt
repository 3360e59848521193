// detect_type_a in the mode that separates UID and ATS: Type A's stages and commands, with its own decisions upon the list and at
// the end. The cursor is the UID's length while the RX mode is set; the found bytes are then three bytes, the UID and the ATS.
#![tactic(auto, using(stages::specs::Laws::decided), unfolding(errors::specs::Choice::pick, stages::specs::Stages::with_length, crate::specs::Decisions::split_found, crate::specs::Decisions::split_written))]

ghost use Rattle.std.specs.Prelude.{List, ℕ, ◌≤◌, length};
ghost use Rattle.protocol.specs.Names.{uid_offset};
ghost use Rattle.stages.specs.Decided.{DecisionRefines};
ghost use Rattle.stages.specs.Starts.{Starts};
ghost use Rattle.stages.specs.Bitrates.{code_for};
ghost use Rattle.protocol.specs.Starts.{type_a_code};
ghost use Rattle.discovery.specs.Decisions.{split_found, split_listed, split_written, split_decision};
ghost use Rattle.discovery.specs.Firsts.{split_first};

use super::list::by_target;
use super::type_a::{
    FIFO_STAGE, LIST_STAGE, READ_RX_MODE_STAGE, SEL_RES_OFFSET, TARGET_OFFSET, UID_OFFSET,
    WRITE_RX_MODE_STAGE, card,
};
use super::{TYPE_A_SPLIT_KIND, type_a};
use chipset::err;
use chipset::registers::any_nonzero;
use errors::{Fault, Refusal};
use stages::put::DATA_LIMIT;
use stages::start::Start;
use stages::{Decision, Layout, byte_or};
use targets::type_a::{is_target_data, is_type2};

// Where the list has the UID's length, and where the UID begins in the found bytes.
const UID_LENGTH_OFFSET: usize = 5;

const FOUND_UID_OFFSET: usize = 3;

pub fn detect_type_a_split(
    bitrate: &[u8],
    uid: &[u8],
    command: &mut [u8; DATA_LIMIT],
) -> Result<Start, Refusal>
    ensures { Starts result command.old command.new (code_for type_a_code bitrate.now (split_first uid.now)) }
{
    type_a::detect(TYPE_A_SPLIT_KIND, bitrate, uid, command)
}

// A target was listed: its data is looked at before the RX mode is.
fn target_found(response: &[u8]) -> Decision
    requires { uid_offset ≤ length response.now }
    ensures { (f : List ℕ) → DecisionRefines f response.now result (split_found response.now) }
{
    if is_target_data(&response[TARGET_OFFSET..]) {
        let uid = response[UID_LENGTH_OFFSET];
        if is_type2(response[SEL_RES_OFFSET]) {
            Decision::Next(READ_RX_MODE_STAGE, uid, card(response))
        } else {
            let ats = byte_or(response, UID_OFFSET + uid as usize, 0);
            Decision::UidAndAts(card(response), uid, ats)
        }
    } else {
        Decision::Refused(Fault::UidLayout)
    }
}

// A target was listed, or none.
fn listed(response: &[u8]) -> Decision
    ensures { (f : List ℕ) → DecisionRefines f response.now result (split_listed response.now) }
{
    by_target(
        response,
        UID_OFFSET,
        Decision::Send(FIFO_STAGE),
        target_found,
    )
}

// The RX mode of a Type 2 tag was written.
fn rx_mode_written(cursor: u8, found: &[u8], response: &[u8]) -> Decision
    ensures { DecisionRefines found.now response.now result (split_written cursor found.now response.now) }
{
    if any_nonzero(response) {
        Decision::Refused(Fault::Status(err::REGISTER_WRITE_FAILED))
    } else {
        let ats = byte_or(found, FOUND_UID_OFFSET + cursor as usize, 0);
        Decision::UidAndAts(Layout::found(found), cursor, ats)
    }
}

// What follows a response: what Type A's stage decides, but for the list and the end.
#[tactic(auto, using(stages::specs::Laws::decided), unfolding(errors::specs::Choice::pick, crate::specs::Decisions::split_decision))]
pub fn decided(stage: u8, cursor: u8, found: &[u8], response: &[u8]) -> Decision
    ensures { DecisionRefines found.now response.now result (split_decision stage cursor found.now response.now) }
{
    match stage {
        LIST_STAGE => listed(response),
        WRITE_RX_MODE_STAGE => rx_mode_written(cursor, found, response),
        _ => type_a::decided(stage, found, response),
    }
}
