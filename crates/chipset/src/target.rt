// What a target does (chipset.rs): the data that each command sends, and its response.
#![tactic(auto, unfolding(errors::specs::Choice::pick, stages::specs::Starts::asserted, crate::specs::Commands::first_of, crate::specs::Responses::initiator_answer, crate::specs::Responses::target_answer))]

ghost use Rattle.std.specs.Prelude.{List, [], ◌∷◌, ◌++◌, ◌≡◌, ℕ, ◌≤◌, ◌%◌, eqb, leb, length, get_or};
ghost use Rattle.framing.specs.Lists.{both};
ghost use Rattle.protocol.specs.Scripts.{done};
ghost use Rattle.protocol.specs.Rules.{rate as rate_of};
ghost use Rattle.protocol.specs.Arguments.{word, init_fits};
ghost use Rattle.protocol.specs.Calls.{tg_init_target, tg_set_general_bytes, tg_get_initiator_command, tg_response_to_initiator, tg_get_target_status};
ghost use Rattle.stages.specs.Decided.{AnswerRefines};
ghost use Rattle.stages.specs.Starts.{Starts};
ghost use Rattle.chipset.specs.Commands.{first_of};
ghost use Rattle.chipset.specs.Responses.{with_status, initiator_answer, target_answer};

use super::response::{from, part, with_status};
use super::{ALL_BYTES_KIND, INITIATOR_COMMAND_KIND, STATUS_KIND, TARGET_STATUS_KIND, clock, err};
use errors::{Fault, Refusal};
use stages::put::DATA_LIMIT;
use stages::start::Start;
use stages::{Decision, Layout, byte_or, start};

// The command codes.
const TG_GET_INITIATOR_COMMAND_CODE: u8 = 0x88;

const TG_GET_TARGET_STATUS_CODE: u8 = 0x8A;

const TG_INIT_TARGET_CODE: u8 = 0x8C;

const TG_RESPONSE_TO_INITIATOR_CODE: u8 = 0x90;

const TG_SET_GENERAL_BYTES_CODE: u8 = 0x92;

// The mode is 0 or 2.
fn is_mode(mode: u8) -> bool
    ensures { result ≡ both (leb mode 2) (eqb (mode % 2) 0) }
{
    mode <= 2 && mode % 2 == 0
}

// The lengths of what a target is given.
const MIFARE_SIZE: usize = 6;

const FELICA_SIZE: usize = 18;

const NFCID3_SIZE: usize = 10;

fn init_fits(mode: u8, mifare: &[u8], felica: &[u8], nfcid3t: &[u8]) -> bool
    ensures { result ≡ init_fits mode mifare.now felica.now nfcid3t.now }
{
    is_mode(mode)
        && mifare.len() == MIFARE_SIZE
        && felica.len() == FELICA_SIZE
        && nfcid3t.len() == NFCID3_SIZE
}

// Kept: these are the parameters of the Rust's function, and only its own call has them together.
pub fn tg_init_target<'a>(
    mode: u8,
    mifare: &'a [u8],
    felica: &'a [u8],
    nfcid3t: &'a [u8],
    gt: &'a [u8],
    ms: u32,
    command: &mut [u8; DATA_LIMIT],
) -> Result<Start, Refusal>
    ensures { Starts result command.old command.new (first_of (tg_init_target mode mifare.now felica.now nfcid3t.now gt.now ms)) }
{
    if !init_fits(mode, mifare, felica, nfcid3t) {
        return Err(Refusal::BadArgument);
    }
    start::command(
        ALL_BYTES_KIND,
        TG_INIT_TARGET_CODE,
        ms,
        &[&[mode], mifare, felica, nfcid3t, gt],
        command,
    )
}

pub fn tg_set_general_bytes(gb: &[u8], command: &mut [u8; DATA_LIMIT]) -> Result<Start, Refusal>
    ensures { Starts result command.old command.new (first_of (tg_set_general_bytes gb.now)) }
{
    start::command(
        STATUS_KIND,
        TG_SET_GENERAL_BYTES_CODE,
        clock::COMMAND_CLOCK,
        &[gb],
        command,
    )
}

pub fn tg_get_initiator_command(ms: u32, command: &mut [u8; DATA_LIMIT]) -> Result<Start, Refusal>
    ensures { Starts result command.old command.new (first_of (tg_get_initiator_command ms)) }
{
    start::command(
        INITIATOR_COMMAND_KIND,
        TG_GET_INITIATOR_COMMAND_CODE,
        ms,
        &[],
        command,
    )
}

// None on any other status.
pub fn tg_get_initiator_command_response(response: &[u8]) -> Decision
    ensures { AnswerRefines response.now result (initiator_answer response.now) }
{
    match byte_or(response, 0, err::NO_DATA) {
        0 => from(response, 1),
        _ => Decision::Nothing,
    }
}

pub fn tg_response_to_initiator(
    bytes: &[u8],
    command: &mut [u8; DATA_LIMIT],
) -> Result<Start, Refusal>
    ensures { Starts result command.old command.new (first_of (tg_response_to_initiator bytes.now)) }
{
    start::command(
        STATUS_KIND,
        TG_RESPONSE_TO_INITIATOR_CODE,
        clock::TG_RESPONSE_TO_INITIATOR_CLOCK,
        &[bytes],
        command,
    )
}

// Of tg_set_general_bytes and tg_response_to_initiator.
pub fn status_response(response: &[u8]) -> Decision
    ensures { AnswerRefines response.now result (with_status response.now (done [])) }
{
    with_status(response, part(0, 0))
}

pub fn tg_get_target_status(command: &mut [u8; DATA_LIMIT]) -> Result<Start, Refusal>
    ensures { Starts result command.old command.new (first_of tg_get_target_status) }
{
    start::command(
        TARGET_STATUS_KIND,
        TG_GET_TARGET_STATUS_CODE,
        clock::COMMAND_CLOCK,
        &[],
        command,
    )
}

// A rate by its index.
fn rate(index: u8) -> u16
    ensures { result ≡ rate_of index }
{
    match index {
        0 => 106,
        1 => 212,
        _ => 424,
    }
}

// The state and the two rates, high byte first.
fn with_rates(send: u16, receive: u16) -> Decision
    ensures { (bs : List ℕ) → 1 ≤ length bs → AnswerRefines bs result (done (get_or bs 0 0 ∷ (word send ++ word receive))) }
{
    let [send_high, send_low] = send.to_be_bytes();
    let [receive_high, receive_low] = receive.to_be_bytes();
    let rates = [send_high, send_low, receive_high, receive_low];
    Decision::Done(Layout::tailed(0, 1, &rates))
}

pub fn tg_get_target_status_response(response: &[u8]) -> Decision
    ensures { AnswerRefines response.now result (target_answer response.now) }
{
    let [state, rates, ..] = response else {
        return Decision::Refused(Fault::ShortResponse);
    };
    if *state != 1 {
        return with_rates(0, 0);
    }
    let send = *rates / 16 % 8;
    let receive = *rates % 8;
    if 2 < send || 2 < receive {
        return Decision::Refused(Fault::Rate);
    }
    with_rates(rate(send), rate(receive))
}
