// Events by their numbers, for a host: the running call's numbers go by value, and the session's arrays are lent.
ghost use Rattle.std.specs.Prelude.{◌≡◌, ℕ, List};
ghost use Rattle.engine.specs.Core.{arrays};
ghost use Rattle.engine.specs.SessionSteps.{state_of, effected};
ghost use Rattle.engine.specs.Numbers.{event_by_of, known_in, after_event_number};

use super::books::{BOOKS_SIZE, CALLER_COUNT};
use super::running::{Core, FOUND_LIMIT, Progress};
use super::state;
use errors::Refusal;
use exchange::Event;
use stages::put::DATA_LIMIT;

// Kept: numbers, since the C interface gives an event by its number, and any number may come.
// The numbers of events.
const OK_EVENT: u8 = 0;

const BAD_EVENT: u8 = 1;

const PACKET_EVENT: u8 = 2;

const TIME_EVENT: u8 = 3;

const FAIL_EVENT: u8 = 4;

const LATE_EVENT: u8 = 5;

const SLEPT_EVENT: u8 = 6;

// The event of a number, where it has one.
#[tactic(auto, unfolding(crate::specs::Numbers::known_in, crate::specs::Numbers::event_by_of))]
// Kept: Event is of `exchange`, and a TryFrom there would put C's numbers into it.
pub fn event_by(number: u8) -> Option<Event>
    ensures { (packet : List ℕ) → known_in result packet ≡ event_by_of number packet }
{
    match number {
        OK_EVENT => Some(Event::Ok),
        BAD_EVENT => Some(Event::Bad),
        PACKET_EVENT => Some(Event::Packet),
        TIME_EVENT => Some(Event::Time),
        FAIL_EVENT => Some(Event::Fail),
        LATE_EVENT => Some(Event::Late),
        SLEPT_EVENT => Some(Event::Slept),
        _ => None,
    }
}

// An event. One with a number that has none fits no order.
// Kept: the numbers go by value and the arrays are lent where they lie, as document 01 has the host entry (decision 22); one `&mut Session` would be another entry.
pub fn event(
    core: Core,
    command: &mut [u8; DATA_LIMIT],
    found: &mut [u8; FOUND_LIMIT],
    frames: &mut [u32; CALLER_COUNT],
    books: &mut [u8; BOOKS_SIZE],
    number: u8,
    packet: &[u8],
    buffer: &mut [u8],
) -> Progress
    ensures { effected result books.new frames.new (arrays command.new found.new) buffer.new ≡ after_event_number (state_of core books.old frames.old) (arrays command.old found.old) (event_by_of number packet.now) buffer.old }
{
    let Some(event) = event_by(number) else {
        return core.refused(Refusal::OutOfTurn);
    };
    state::event(core, command, found, frames, books, event, packet, buffer)
}
