// What an initiator does (chipset.rs): the data that each command sends, and its response.
#![tactic(auto, unfolding(errors::specs::Choice::pick, stages::specs::Starts::asserted, crate::specs::Commands::first_of, crate::specs::Responses::list_answer, crate::specs::Responses::exchange_answer, crate::specs::Responses::jump_answer, crate::specs::Responses::with_masked_status))]

ghost use Rattle.std.specs.Prelude.{◌≡◌, ◌≤◌, drop};
ghost use Rattle.protocol.specs.Scripts.{done};
ghost use Rattle.protocol.specs.Arguments.{bit as bit_of, active_byte};
ghost use Rattle.protocol.specs.Calls.{in_list_passive_target_of, in_data_exchange_of, in_communicate_thru_of, in_jump_for_dep};
ghost use Rattle.stages.specs.Decided.{AnswerRefines};
ghost use Rattle.stages.specs.Starts.{Starts};
ghost use Rattle.chipset.specs.Commands.{first_of};
ghost use Rattle.chipset.specs.Responses.{with_status, list_answer, exchange_answer, jump_answer};

use super::response::{from, with_length, with_masked_status, with_status};
use super::{EXCHANGED_DATA_KIND, JUMP_KIND, LISTED_TARGET_KIND, THRU_KIND, clock};
use errors::Refusal;
use stages::put::DATA_LIMIT;
use stages::start::Start;
use stages::{Decision, Layout, byte_or, start};

// The command codes.
pub const IN_DATA_EXCHANGE_CODE: u8 = 0x40;

pub const IN_COMMUNICATE_THRU_CODE: u8 = 0x42;

pub const IN_LIST_PASSIVE_TARGET_CODE: u8 = 0x4A;

pub const IN_JUMP_FOR_DEP_CODE: u8 = 0x56;

// InDataExchange: the status is a byte's low six bits, and the bit above them the more flag.
pub const MORE_BIT: u8 = 64;

// MaxTg, one target at a time; and the number of the target that is listed.
pub const ONE_TARGET: u8 = 1;

pub const TARGET_NUMBER: u8 = 0x01;

pub fn in_list_passive_target(
    max_tg: u8,
    bitrate: u8,
    initiator: &[u8],
    command: &mut [u8; DATA_LIMIT],
) -> Result<Start, Refusal>
    ensures { Starts result command.old command.new (first_of (in_list_passive_target_of max_tg bitrate initiator.now)) }
{
    start::command(
        LISTED_TARGET_KIND,
        IN_LIST_PASSIVE_TARGET_CODE,
        clock::IN_LIST_PASSIVE_TARGET_CLOCK,
        &[&[max_tg, bitrate], initiator],
        command,
    )
}

// NbTg and Tg are left out.
pub fn in_list_passive_target_response(response: &[u8]) -> Decision
    ensures { AnswerRefines response.now result (list_answer response.now) }
{
    match byte_or(response, 0, 0) {
        0 => Decision::Nothing,
        _ => with_length(response, 2, from(response, 2)),
    }
}

pub fn in_data_exchange(
    bytes: &[u8],
    ms: u32,
    command: &mut [u8; DATA_LIMIT],
) -> Result<Start, Refusal>
    ensures { Starts result command.old command.new (first_of (in_data_exchange_of bytes.now ms)) }
{
    start::command(
        EXCHANGED_DATA_KIND,
        IN_DATA_EXCHANGE_CODE,
        ms,
        &[&[TARGET_NUMBER], bytes],
        command,
    )
}

// The status is masked, and the more flag stands behind the data.
pub fn in_data_exchange_response(response: &[u8]) -> Decision
    ensures { AnswerRefines response.now result (exchange_answer response.now) }
{
    let more = byte_or(response, 0, 0) / MORE_BIT % 2;
    let layout = Layout::tailed(1, response.len().saturating_sub(1), &[more]);
    with_masked_status(response, Decision::Done(layout))
}

pub fn in_communicate_thru(
    bytes: &[u8],
    ms: u32,
    command: &mut [u8; DATA_LIMIT],
) -> Result<Start, Refusal>
    ensures { Starts result command.old command.new (first_of (in_communicate_thru_of bytes.now ms)) }
{
    start::command(THRU_KIND, IN_COMMUNICATE_THRU_CODE, ms, &[bytes], command)
}

// The status is not masked.
pub fn in_communicate_thru_response(response: &[u8]) -> Decision
    ensures { AnswerRefines response.now result (with_status response.now (done (drop 1 response.now))) }
{
    with_status(response, from(response, 1))
}

// 1 where there are bytes.
fn bit(bytes: &[u8]) -> u8
    ensures { (result ≡ bit_of bytes.now) × (result ≤ 1) }
{
    u8::from(!bytes.is_empty())
}

fn active_byte(active: bool) -> u8
    ensures { result ≡ active_byte active }
{
    u8::from(active)
}

// Kept: these are the parameters of the Rust's function, and only its own call has them together.
pub fn in_jump_for_dep<'a>(
    active: bool,
    br: u8,
    passive: &'a [u8],
    nfcid3: &'a [u8],
    gi: &'a [u8],
    command: &mut [u8; DATA_LIMIT],
) -> Result<Start, Refusal>
    ensures { Starts result command.old command.new (first_of (in_jump_for_dep active br passive.now nfcid3.now gi.now)) }
{
    let nf = bit(passive) + 2 * bit(nfcid3) + 4 * bit(gi);
    let head = [active_byte(active), br, nf];
    start::command(
        JUMP_KIND,
        IN_JUMP_FOR_DEP_CODE,
        clock::IN_JUMP_FOR_DEP_CLOCK,
        &[&head, passive, nfcid3, gi],
        command,
    )
}

// Status and Tg are left out.
pub fn in_jump_for_dep_response(response: &[u8]) -> Decision
    ensures { AnswerRefines response.now result (jump_answer response.now) }
{
    with_status(response, with_length(response, 2, from(response, 2)))
}
