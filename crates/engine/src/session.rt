// The session and its entries: a call or an event goes in with the buffer; the session comes back with an order or an answer.
ghost use Rattle.std.specs.Prelude.{◌≡◌};
ghost use Rattle.exchange.specs.Steps.{event_of};
ghost use Rattle.engine.specs.Inputs.{gives, step_with};
ghost use Rattle.calls.specs.Numbers.{call_of};
ghost use Rattle.engine.specs.Numbers.{call_input};
ghost use Rattle.engine.specs.SessionSteps.{stepped, fresh_session};

use super::books::{BOOKS_SIZE, CALLER_COUNT};
use super::running::{Core, FOUND_LIMIT, Output};
use super::state;
use calls::start::Numbers;
use exchange::Event;
use stages::put::DATA_LIMIT;

#[repr(C)]
#[derive(Clone, Copy)]
pub struct Session {
    pub command: [u8; DATA_LIMIT],
    pub found: [u8; FOUND_LIMIT],
    pub frames: [u32; CALLER_COUNT],
    pub books: [u8; BOOKS_SIZE],
    pub core: Core,
}

#[derive(Clone, Copy)]
pub struct Step {
    pub session: Session,
    pub output: Output,
}

impl Session {
    // No call runs, and no opening is behind it.
    pub fn fresh() -> Session
        ensures { result ≡ fresh_session }
    {
        Session {
            command: [0; DATA_LIMIT],
            found: [0; FOUND_LIMIT],
            frames: [0; CALLER_COUNT],
            books: [0; BOOKS_SIZE],
            core: Core::none(),
        }
    }

    // A call, by its number and arguments (`calls::start`).
    // Kept: number, numbers and four byte strings are the arguments of every call, as C passes them (decision 23).
    pub fn call(
        mut self,
        number: u8,
        numbers: Numbers,
        first: &[u8],
        second: &[u8],
        third: &[u8],
        fourth: &[u8],
        buffer: &mut [u8],
    ) -> Step
        ensures { stepped result buffer.new ≡ step_with self (call_input numbers.caller (call_of number numbers first.now second.now third.now fourth.now) buffer.old) }
    {
        let progress = state::call(
            self.core,
            &mut self.command,
            &mut self.frames,
            &mut self.books,
            number,
            numbers,
            first,
            second,
            third,
            fourth,
            buffer,
        );
        self.core = progress.core;
        Step {
            session: self,
            output: progress.output,
        }
    }

    // What the host returns for an order. A packet's bytes are lent beside the event, and count with Packet alone.
    pub fn event(mut self, event: Event, packet: &[u8], buffer: &mut [u8]) -> Step
        ensures { stepped result buffer.new ≡ step_with self (gives (event_of event packet.now) buffer.old) }
    {
        let progress = state::event(
            self.core,
            &mut self.command,
            &mut self.found,
            &mut self.frames,
            &mut self.books,
            event,
            packet,
            buffer,
        );
        self.core = progress.core;
        Step {
            session: self,
            output: progress.output,
        }
    }
}
