// transceive (device.rs): how it starts, and its responses. That of any other target is in_communicate_thru's.
#![tactic(auto, using(errors::specs::Rules::picked), unfolding(errors::specs::Choice::pick, crate::specs::Transceive::timeout_of, crate::specs::Transceive::type1_first, crate::specs::Transceive::thru_first, crate::specs::Transceive::transceive_first, crate::specs::Transceive::type2_answer, crate::specs::Transceive::type1_answer, chipset::specs::Responses::with_masked_status))]

ghost use Rattle.std.specs.Prelude.{◌&&◌, ◌≡◌};
ghost use Rattle.protocol.specs.Starts.{is106a, type2_sel_res, is_sendable, clock_of};
ghost use Rattle.stages.specs.Decided.{AnswerRefines};
ghost use Rattle.stages.specs.Starts.{Starts};
ghost use Rattle.device.specs.Transceive.{timeout_of, type1_first, thru_first, transceive_first, type2_answer, type1_answer};

use chipset::initiator::TARGET_NUMBER;
use chipset::response::{from, part, status, with_masked_status};
use chipset::{THRU_KIND, initiator};
use errors::{Fault, Refusal};
use stages::put::DATA_LIMIT;
use stages::start::Start;
use stages::{Decision, start};
use targets::{Bitrate, type_a};

// The kinds of transceive of a Type 2 and of a Type 1 target.
// Kept: a kind is a byte of the session, where any byte may stand, and the theorems speak of every number.
pub const TYPE_2_KIND: u8 = 15;

pub const TYPE_1_KIND: u8 = 16;

// What transceive waits for a card where no ms are given, and what the chip gets beside it.
const STANDARD_MS: u32 = 1000;

const MARGIN_MS: u32 = 100;

// The ms of the command's clock, by those that the caller gives.
pub(crate) fn clock(timeout: Option<u16>) -> u32
    ensures { result ≡ clock_of (timeout_of timeout) }
{
    timeout.map_or(STANDARD_MS, u32::from) + MARGIN_MS
}

// The first byte of SEL_RES is that of a Type 2 tag.
fn is_type2(sel_res: &[u8]) -> bool
    ensures { result ≡ type2_sel_res sel_res.now }
{
    matches!(sel_res, [first, ..] if type_a::is_type2(*first))
}

fn is_type2_106a(bitrate: Bitrate, sel_res: &[u8]) -> bool
    ensures { result ≡ (is106a bitrate && type2_sel_res sel_res.now) }
{
    matches!(bitrate, Bitrate::B106A) && is_type2(sel_res)
}

// The commands of a Type 1 tag that the chip sends.
const TYPE_1_RALL: u8 = 0x00;

const TYPE_1_READ: u8 = 0x01;

const TYPE_1_WRITE_NE: u8 = 0x1A;

const TYPE_1_WRITE_E: u8 = 0x53;

const TYPE_1_RID: u8 = 0x72;

fn is_sendable(bytes: &[u8]) -> bool
    ensures { result ≡ is_sendable bytes.now }
{
    matches!(
        bytes,
        [
            TYPE_1_RALL | TYPE_1_READ | TYPE_1_WRITE_NE | TYPE_1_WRITE_E | TYPE_1_RID,
            ..
        ]
    )
}

#[tactic(auto, using(stages::specs::Starts::starts_not, stages::specs::Starts::starts_true), unfolding(crate::specs::Transceive::type1_first))]
fn type1(bytes: &[u8], ms: u32, command: &mut [u8; DATA_LIMIT]) -> Result<Start, Refusal>
    ensures { Starts result command.old command.new (type1_first bytes.now ms) }
{
    if !is_sendable(bytes) {
        return Err(Refusal::NotSendable);
    }
    start::command(
        TYPE_1_KIND,
        initiator::IN_DATA_EXCHANGE_CODE,
        ms,
        &[&[TARGET_NUMBER], bytes],
        command,
    )
}

fn thru(
    bitrate: Bitrate,
    sel_res: &[u8],
    bytes: &[u8],
    ms: u32,
    command: &mut [u8; DATA_LIMIT],
) -> Result<Start, Refusal>
    ensures { Starts result command.old command.new (thru_first bitrate sel_res.now bytes.now ms) }
{
    let kind = if is_type2_106a(bitrate, sel_res) {
        TYPE_2_KIND
    } else {
        THRU_KIND
    };
    start::command(
        kind,
        initiator::IN_COMMUNICATE_THRU_CODE,
        ms,
        &[bytes],
        command,
    )
}

// SEL_RES is empty where there is none.
// Kept: these are the parameters of the Rust's function, and only its own call has them together.
pub fn transceive(
    bitrate: &[u8],
    sel_res: &[u8],
    rid_res: bool,
    bytes: &[u8],
    timeout: Option<u16>,
    command: &mut [u8; DATA_LIMIT],
) -> Result<Start, Refusal>
    ensures { Starts result command.old command.new (transceive_first bitrate.now sel_res.now rid_res bytes.now (clock_of (timeout_of timeout))) }
{
    let rate = targets::code(bitrate)?;
    let ms = clock(timeout);
    if rid_res {
        type1(bytes, ms, command)
    } else {
        thru(rate, sel_res, bytes, ms, command)
    }
}

// The most bytes of a Type 2 response without a CRC_A: the status and a reply of two bytes.
const BARE_LIMIT: usize = 3;

// Of a Type 2 target: a reply over 2 bytes must pass CRC_A and loses two bytes.
pub fn type2_response(response: &[u8]) -> Decision
    ensures { AnswerRefines response.now result (type2_answer response.now) }
{
    if let Err(fault) = status(response) {
        return Decision::Refused(fault);
    }
    if response.len() <= BARE_LIMIT {
        from(response, 1)
    } else if crc::check_crc_a(&response[1..]) {
        part(1, response.len() - 3)
    } else {
        Decision::Refused(Fault::CrcA)
    }
}

// Of a Type 1 target: the more flag is left out.
pub fn type1_response(response: &[u8]) -> Decision
    ensures { AnswerRefines response.now result (type1_answer response.now) }
{
    with_masked_status(response, from(response, 1))
}
