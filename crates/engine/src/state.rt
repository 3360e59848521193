// A call and an event on what a session holds: the numbers of the running call go by value, the books and the arrays are lent. A call is
// admitted and what comes out is booked here.
ghost use Rattle.std.specs.Prelude.{◌≡◌, ℕ, List};
ghost use Rattle.exchange.specs.Steps.{event_of};
ghost use Rattle.calls.specs.Numbers.{call_of};
ghost use Rattle.engine.specs.Core.{Arrays, arrays};
ghost use Rattle.engine.specs.SessionSteps.{state_of, valid_in, free_in, admits_in, effected, event_after, open_after};
ghost use Rattle.engine.specs.Inputs.{after_input};
ghost use Rattle.engine.specs.Numbers.{call_input};

use super::books;
use super::books::{BOOKS_SIZE, CALLER_COUNT, LAST_CALLER, PADDED_MODE};
use super::running::{BUFFER_NEED, Core, FOUND_LIMIT, Progress};
use calls::start::Numbers;
use calls::{NO_CALL_KIND, start};
use device::OPENING_KIND;
use errors::Refusal;
use exchange::Event;
use stages::put::DATA_LIMIT;

// Every number is in its range.
#[tactic(auto, using(framing::specs::Rules::steps), unfolding(crate::specs::SessionSteps::valid))]
fn is_valid(core: Core, books: &[u8; BOOKS_SIZE]) -> bool
    ensures { result ≡ valid_in core books.now }
{
    core.is_valid()
        && books::is_in_range(
            books[books::OPENED],
            books[books::MODE],
            books[books::CALLER],
        )
}

// A call may begin: no other runs.
fn is_free(core: Core, books: &[u8; BOOKS_SIZE]) -> bool
    ensures { result ≡ free_in core books.now }
{
    is_valid(core, books) && core.call.kind == NO_CALL_KIND
}

// A call other than an opening may begin: the reader is open, too.
fn is_admitted(core: Core, books: &[u8; BOOKS_SIZE]) -> bool
    ensures { result ≡ admits_in core books.now }
{
    is_free(core, books) && books[books::OPENED] == books::OPEN
}

// What the host returns for an order.
// Kept: the session's parts one by one and no struct of them: the session is lent by C, and a struct of its parts is the session itself, copied.
pub(crate) fn event(
    core: Core,
    command: &mut [u8; DATA_LIMIT],
    found: &mut [u8; FOUND_LIMIT],
    frames: &mut [u32; CALLER_COUNT],
    books: &mut [u8; BOOKS_SIZE],
    event: Event,
    packet: &[u8],
    buffer: &mut [u8],
) -> Progress
    ensures { effected result books.new frames.new (arrays command.new found.new) buffer.new ≡ event_after (state_of core books.old frames.old) (arrays command.old found.old) (event_of event packet.now) buffer.old }
{
    if is_valid(core, books) {
        let caller = books[books::CALLER];
        let extra = books::extra_zeros(books[books::MODE], packet);
        let progress = core.event(event, &packet[extra..], command, found, buffer);
        books::book(
            frames,
            books,
            caller,
            core.call.kind == OPENING_KIND,
            progress.output,
        );
        progress
    } else {
        core.refused(Refusal::OutOfTurn)
    }
}

// An opening begins the books anew, in its mode.
// Kept: the numbers go by value and the arrays are lent where they lie, as document 01 has the host entry (decision 22); one `&mut Session` would be another entry.
fn open(
    core: Core,
    frames: &mut [u32; CALLER_COUNT],
    books: &mut [u8; BOOKS_SIZE],
    caller: u8,
    mode: u8,
    buffer: &mut [u8],
) -> Progress
    ensures { (f : Arrays) → effected result books.new frames.new f buffer.new ≡ open_after (state_of core books.old frames.old) f caller mode buffer.old }
{
    if is_free(core, books) {
        if buffer.len() < BUFFER_NEED {
            return core.refused(Refusal::ShortBuffer);
        }
        if caller > LAST_CALLER {
            return core.refused(Refusal::BadArgument);
        }
        if mode > PADDED_MODE {
            return core.refused(Refusal::BadArgument);
        }
        let progress = core.open(buffer);
        books::begin(frames, books, mode);
        books::book(frames, books, caller, true, progress.output);
        progress
    } else {
        core.refused(Refusal::OutOfTurn)
    }
}

// A call by its number and arguments (`calls::start`), whose bytes are put by in `command`.
// Kept: the numbers go by value and the arrays are lent where they lie, as document 01 has the host entry (decision 22); one `&mut Session` would be another entry.
pub fn call(
    core: Core,
    command: &mut [u8; DATA_LIMIT],
    frames: &mut [u32; CALLER_COUNT],
    books: &mut [u8; BOOKS_SIZE],
    number: u8,
    numbers: Numbers,
    first: &[u8],
    second: &[u8],
    third: &[u8],
    fourth: &[u8],
    buffer: &mut [u8],
) -> Progress
    ensures { (f : List ℕ) → effected result books.new frames.new (arrays command.new f) buffer.new ≡ after_input (state_of core books.old frames.old) (arrays command.old f) (call_input numbers.caller (call_of number numbers first.now second.now third.now fourth.now) buffer.old) }
{
    if number == start::OPEN_CALL {
        return open(core, frames, books, numbers.caller, numbers.x, buffer);
    }
    if is_admitted(core, books) {
        if buffer.len() < BUFFER_NEED {
            return core.refused(Refusal::ShortBuffer);
        }
        if numbers.caller > LAST_CALLER {
            return core.refused(Refusal::BadArgument);
        }
        let started = start::start(number, numbers, first, second, third, fourth, command);
        let progress = core.start(started, command, buffer);
        books::book(frames, books, numbers.caller, false, progress.output);
        progress
    } else {
        core.refused(Refusal::OutOfTurn)
    }
}
