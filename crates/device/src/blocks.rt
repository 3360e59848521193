// Read and Write Without Encryption of FeliCa blocks (document 02, N5): how each starts, and its response, which is checked
// against the request.
#![tactic(auto, using(errors::specs::Rules::picked), unfolding(errors::specs::Choice::pick, errors::specs::Refusals::returned, crate::specs::Blocks::read_first, crate::specs::Blocks::write_first, crate::specs::Blocks::read_answer, crate::specs::Blocks::write_answer))]

ghost use Rattle.std.specs.Prelude.{Bool, List, ◌≡◌, ℕ, ◌≤◌, length, drop};
ghost use Rattle.errors.specs.Refusals.{returned};
ghost use Rattle.framing.specs.Build.{left};
ghost use Rattle.felica.specs.Packets.{built_of};
ghost use Rattle.protocol.specs.Starts.{clock_of, data_limit};
ghost use Rattle.stages.specs.Decided.{AnswerRefines};
ghost use Rattle.stages.specs.Starts.{Starts};
ghost use Rattle.chipset.specs.Responses.{with_status};
ghost use Rattle.device.specs.Transceive.{timeout_of};
ghost use Rattle.device.specs.Blocks.{thru_if, read_first, write_first, if_good, read_answer, write_answer};

use super::transceive::clock;
use chipset::initiator;
use chipset::response::{from, with_status};
use errors::{Fault, Refusal};
use felica::check::{check_read, check_write};
use felica::reply::BLOCKS_OFFSET;
use felica::request::{build_read_request, build_write_request};
use stages::put::DATA_LIMIT;
use stages::start::Start;
use stages::{Decision, start};

// The kinds of a read and of a write.
// Kept: a kind is a byte of the session, where any byte may stand, and the theorems speak of every number.
pub const READ_BLOCKS_KIND: u8 = 23;

pub const WRITE_BLOCKS_KIND: u8 = 24;

// Where block data starts in a response: behind the status byte, in the card's reply.
const RESPONSE_BLOCKS_OFFSET: usize = 1 + BLOCKS_OFFSET;

// A request that was built in the pending command is sent through InCommunicateThru.
fn start_built(kind: u8, built: Result<usize, Refusal>, ms: u32) -> Result<Start, Refusal>
    ensures { (fits : Bool) (p c₀ c₁ : List ℕ) → (fits ≡ Bool.true → (length p ≤ data_limit) × (length p ≤ length c₀)) → left (returned built) c₁ ≡ built_of fits p c₀ → Starts result c₀ c₁ (thru_if fits kind ms p) }
{
    start::first_command(kind, initiator::IN_COMMUNICATE_THRU_CODE, ms, built?)
}

pub fn read_without_encryption(
    idm: &[u8],
    service: u16,
    blocks: &[u8],
    timeout: Option<u16>,
    command: &mut [u8; DATA_LIMIT],
) -> Result<Start, Refusal>
    ensures { Starts result command.old command.new (read_first idm.now service blocks.now (clock_of (timeout_of timeout))) }
{
    let ms = clock(timeout);
    let built = build_read_request(idm, service, blocks, command);
    start_built(READ_BLOCKS_KIND, built, ms)
}

// Kept: these are the parameters of the Rust's function, and only its own call has them together.
pub fn write_without_encryption(
    idm: &[u8],
    service: u16,
    blocks: &[u8],
    bytes: &[u8],
    timeout: Option<u16>,
    command: &mut [u8; DATA_LIMIT],
) -> Result<Start, Refusal>
    ensures { Starts result command.old command.new (write_first idm.now service blocks.now bytes.now (clock_of (timeout_of timeout))) }
{
    let ms = clock(timeout);
    let built = build_write_request(idm, service, blocks, bytes, command);
    start_built(WRITE_BLOCKS_KIND, built, ms)
}

// The card's reply stands behind the status byte.
fn card_reply(response: &[u8]) -> &[u8]
    ensures { result.now ≡ drop 1 response.now }
{
    response.get(1..).unwrap_or(&[])
}

// The response from a place on where its status and its reply are good; else the fault of the first that is not.
fn if_good(checked: Result<(), Fault>, response: &[u8], start: usize) -> Decision
    ensures { AnswerRefines response.now result (with_status response.now (if_good start response.now checked)) }
{
    let decision = match checked {
        Ok(()) => from(response, start),
        Err(fault) => Decision::Refused(fault),
    };
    with_status(response, decision)
}

// The blocks, in the order of the request; `pending` is the request.
pub fn read_response(pending: &[u8], response: &[u8]) -> Decision
    ensures { AnswerRefines response.now result (read_answer pending.now response.now) }
{
    if_good(
        check_read(pending, card_reply(response)),
        response,
        RESPONSE_BLOCKS_OFFSET,
    )
}

// No bytes.
pub fn write_response(pending: &[u8], response: &[u8]) -> Decision
    ensures { AnswerRefines response.now result (write_answer pending.now response.now) }
{
    if_good(
        check_write(pending, card_reply(response)),
        response,
        response.len(),
    )
}
