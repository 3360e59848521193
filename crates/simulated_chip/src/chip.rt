// The chip: the bytes that a host wrote go in, and the packet behind ACK and the chip after it come out.
#![tactic(auto, using(errors::specs::Rules::picks, crate::specs::RangeLaws::few_cards), unfolding(errors::specs::Choice::pick, chip_protocol::specs::Chip::field_on_after, chip_protocol::specs::Chip::response_to, chip_protocol::specs::Chip::state_after, chip_protocol::specs::Packets::response_packet, crate::specs::Steps::step_of, crate::specs::Steps::zeros))]

ghost use Rattle.std.specs.Prelude.{◌≡◌, IfSome, ◌<◌, ◌≤◌, eqb, length, drop};
ghost use Rattle.chip_protocol.specs.Names.{longest_packet};
ghost use Rattle.chip_protocol.specs.Packets.{response_packet};
ghost use Rattle.chip_protocol.specs.Chip.{response_to, field_on_after, state_after};
ghost use Rattle.simulated_chip.specs.Memory.{bit, place_of, place_number, chip_state, numbers_of, fresh_numbers};
ghost use Rattle.simulated_chip.specs.Responses.{response_in, Short, Puts};
ghost use Rattle.simulated_chip.specs.Steps.{PutPacket, zeros, fresh_chip_memory, left_by, step_of};

use super::names;
use super::names::{CARDS_SIZE, REPLY_MEMORY_SIZE, RESPONSE_LIMIT, SENT_MEMORY_SIZE};
use super::range::Ranged;
use super::response::{SyntaxError, put_registers, put_response};
use errors::Refusal;
use framing::Format;
use framing::frame::{Rcs956Format, build_response, command_in};

// How many cards the field has, the place of the card found and 1 (0: none), and whether the RF field is on (0 or 1).
#[repr(C)]
#[derive(Clone, Copy, Debug, PartialEq, Eq)]
pub struct State {
    pub count: u8,
    pub found: u8,
    pub on: u8,
}

// The chip with its field: its cards, and for each card the bytes sent and the replies to them.
#[repr(C)]
#[derive(Clone, Copy)]
pub struct Chip {
    pub cards: [u8; CARDS_SIZE],
    pub sent: [u8; SENT_MEMORY_SIZE],
    pub replies: [u8; REPLY_MEMORY_SIZE],
    pub state: State,
}

impl State {
    pub fn fresh() -> State
        ensures { result ≡ fresh_numbers }
    {
        State {
            count: 0,
            found: 0,
            on: 0,
        }
    }
}

// Memory of zeros.
fn zeros<const N: usize>() -> [u8; N]
    ensures { result ≡ zeros N }
{
    [0; N]
}

impl Chip {
    // An empty field, and the chip as at its start.
    pub fn fresh() -> Chip
        ensures { result ≡ fresh_chip_memory }
    {
        Chip {
            cards: zeros(),
            sent: zeros(),
            replies: zeros(),
            state: State::fresh(),
        }
    }

    // The bytes that the host wrote: nothing, or ACK and the packet of so many bytes at the buffer's start. A buffer under 1,024 bytes is refused.
    pub fn step(&mut self, written: &[u8], buffer: &mut [u8]) -> Result<Option<usize>, Refusal>
        ensures { left_by self.new result buffer.new ≡ step_of self.old written.now buffer.old }
    {
        if buffer.len() < names::PACKET_SIZE {
            return Err(Refusal::ShortBuffer);
        }
        let Some(ranged) = self.ranged() else {
            return Err(Refusal::OutOfTurn);
        };
        let Some((code, bytes)) = command_in(written).split_first() else {
            return Ok(None);
        };
        let n = ranged.put_packet(*code, bytes, buffer);
        self.state = ranged.after(*code, bytes);
        Ok(Some(n))
    }
}

impl Ranged<'_> {
    // The numbers after a command.
    fn after(self, code: u8, bytes: &[u8]) -> State
        ensures { result ≡ numbers_of self.entry.chip.now.state.count (state_after (chip_state self.entry.chip.now) code bytes.now) }
    {
        let state = self.chip.state;
        match code {
            names::RESET_MODE_CODE => State {
                found: 0,
                on: 0,
                ..state
            },
            names::RF_CONFIGURATION_CODE => State {
                on: field_on_after(state.on, bytes),
                ..state
            },
            names::IN_LIST_PASSIVE_TARGET_CODE => State {
                found: place_number(self.listed_place(bytes)),
                on: 1,
                ..state
            },
            names::IN_JUMP_FOR_DEP_CODE => State {
                found: place_number(self.partner_place(bytes)),
                on: 1,
                ..state
            },
            _ => state,
        }
    }

    // The response to a command, put at the start of `out`.
    fn respond(
        self,
        code: u8,
        bytes: &[u8],
        out: &mut [u8; RESPONSE_LIMIT],
    ) -> Result<usize, SyntaxError>
        ensures { Puts result out.new (response_to (chip_state self.entry.chip.now) code bytes.now) }
    {
        match code {
            names::GET_FIRMWARE_VERSION_CODE => {
                Ok(put_response(&names::FIRMWARE_VERSION, &[], out))
            }
            names::READ_REGISTER_CODE => put_registers(self.chip.state.on, bytes, out),
            names::WRITE_REGISTER_CODE => Ok(put_response(&[names::SUCCESS_STATUS], &[], out)),
            names::SET_PARAMETERS_CODE => Ok(put_response(&[], &[], out)),
            names::RESET_MODE_CODE => Ok(put_response(&[], &[], out)),
            names::RF_CONFIGURATION_CODE => Ok(put_response(&[], &[], out)),
            names::IN_DATA_EXCHANGE_CODE => Ok(self.put_exchanged(behind_target(bytes), out)),
            names::IN_COMMUNICATE_THRU_CODE => Ok(self.put_exchanged(bytes, out)),
            names::IN_LIST_PASSIVE_TARGET_CODE => Ok(self.put_list(bytes, out)),
            names::IN_JUMP_FOR_DEP_CODE => Ok(self.put_partner(bytes, out)),
            _ => Err(SyntaxError),
        }
    }

    // The packet of the response to a command, put at the buffer's start; how long it is.
    fn put_packet(self, code: u8, bytes: &[u8], buffer: &mut [u8]) -> usize
        requires { longest_packet ≤ length buffer.old }
        ensures { PutPacket (response_packet code (response_to (chip_state self.entry.chip.now) code bytes.now)) buffer.old result buffer.new }
    {
        let mut out = [0u8; RESPONSE_LIMIT];
        let response = self.respond(code, bytes, &mut out);
        put_packet(response, code, &out, buffer)
    }
}

// The number behind the place of a card found; 0 where there is none.
fn place_number(place: Option<usize>) -> u8
    requires { IfSome place (λ i. i < 255) }
    ensures { result ≡ place_number (place_of place) }
{
    match place {
        Some(card) => card as u8 + 1,
        None => 0,
    }
}

// RFConfiguration switches the RF field by the lowest bit of its item's byte.
fn field_on_after(on: u8, bytes: &[u8]) -> u8
    requires { on ≤ 1 }
    ensures { result ≡ bit (field_on_after (eqb on 1) bytes.now) }
{
    if bytes.first().copied().unwrap_or(0) == names::RF_FIELD_ITEM {
        return bytes.get(1).copied().unwrap_or(0) % 2;
    }
    on
}

// InDataExchange's data behind the target number.
fn behind_target(bytes: &[u8]) -> &[u8]
    ensures { result.now ≡ drop 1 bytes.now }
{
    bytes.get(1..).unwrap_or(&[])
}

// Writes the packet of a response at the buffer's start, and answers how long it is.
fn put_packet(
    response: Result<usize, SyntaxError>,
    code: u8,
    out: &[u8; RESPONSE_LIMIT],
    buffer: &mut [u8],
) -> usize
    requires { (longest_packet ≤ length buffer.old) × Short response }
    ensures { PutPacket (response_packet code (response_in response out.now)) buffer.old result buffer.new }
{
    match response {
        Ok(n) => build_response(code, &out[..n], buffer).unwrap(),
        Err(SyntaxError) => {
            framing::build(Rcs956Format::format(), &[names::ERROR_IDENTIFIER], buffer).unwrap()
        }
    }
}
