// One running call: its numbers, and what a call or an event does to them, to the arrays and to the buffer.
ghost use Rattle.std.specs.Prelude.{◌≡◌, ℕ, ◌≤◌, true, List, length};
ghost use Rattle.exchange.specs.Steps.{event_of, order_of};
ghost use Rattle.stages.specs.Stages.{cmd};
ghost use Rattle.stages.specs.Starts.{Starts, StartFits, Start as StartOf};
ghost use Rattle.protocol.specs.Session.{buffer_need};
ghost use Rattle.protocol.specs.Starts.{data_limit};
ghost use Rattle.engine.specs.Core.{no_core, is_valid_of, Arrays, arrays, running, unchanged, with_found_of, with_command_of, progressed, orders_of, sends_of, stage_of, ends_of, is_long_of, event_core, open_core, start_on};

use super::call::{Call, OPENING_ACK_PHASE, Transition};
use calls::NO_CALL_KIND;
use device::OPENING_KIND;
use errors::{Fault, Refusal};
use exchange::{Event, Exchange, Order};
use framing::ACK_BYTES;
use framing::frame::build_command;
use stages::Data;
use stages::put::DATA_LIMIT;
use stages::start::Start;

// A buffer has so many bytes at least, a packet so many at most, and so have the found bytes.
pub const BUFFER_NEED: usize = 1024;

pub const PACKET_LIMIT: usize = 1024;

pub const FOUND_LIMIT: usize = 1024;

// How much of each array is in use, the exchange, and the call.
// Kept: the lengths stand beside the arrays, and no invariant binds them: a Core lies in the C session, where any bytes may stand.
#[repr(C)]
#[derive(Clone, Copy, Debug, PartialEq, Eq)]
pub struct Core {
    pub command: usize,
    pub found: usize,
    pub exchange: Exchange,
    pub call: Call,
}

// An order or an answer. The bytes of a write order (ACK has six) and of an answer stand at the buffer's start, so many of them.
// With Type A's the lengths of the UID and the ATS among them may be given. A list that failed says how many of its codes were finished.
// Kept: twelve things come out, orders, answers and refusals: a Result would be opened only to tell the others apart.
#[derive(Clone, Copy, Debug, PartialEq, Eq)]
pub enum Output {
    Ack,
    Command(usize),
    Read(u32),
    Drain,
    Pause(u32),
    Done(usize),
    Type1(usize),
    UidAndAts(usize, u8, u8),
    Nothing,
    Failed(Fault),
    FailedAfter(Fault, u8),
    Refused(Refusal),
}

// The new numbers, and what is given out.
#[derive(Clone, Copy, Debug, PartialEq, Eq)]
pub struct Progress {
    pub core: Core,
    pub output: Output,
}

// A packet over the limit.
#[tactic(auto, unfolding(crate::specs::Core::is_long_of))]
fn is_long(event: Event, packet: &[u8]) -> bool
    ensures { result ≡ is_long_of (event_of event packet.now) }
{
    matches!(event, Event::Packet) && PACKET_LIMIT < packet.len()
}

impl Core {
    // No call runs, and nothing is put by.
    pub fn none() -> Core
        ensures { result ≡ no_core }
    {
        Core {
            command: 0,
            found: 0,
            exchange: Exchange::start(0, 0),
            call: Call::none(),
        }
    }

    // Every field is in its range.
    #[tactic(auto, using(framing::specs::Rules::steps), unfolding(crate::specs::Core::is_valid_of))]
    pub fn is_valid(self) -> bool
        ensures { result ≡ is_valid_of self }
    {
        self.command <= DATA_LIMIT
            && self.found <= FOUND_LIMIT
            && self.exchange.phase <= Exchange::DRAINING_PHASE
            && self.call.is_valid()
    }

    fn running(self, call: Call, exchange: Exchange) -> Core
        ensures { result ≡ running self call exchange }
    {
        Core {
            exchange,
            call,
            ..self
        }
    }

    pub(crate) fn with_found(self, found: usize) -> Core
        ensures { result ≡ with_found_of self found }
    {
        Core { found, ..self }
    }

    pub(crate) fn with_command(self, command: usize) -> Core
        ensures { result ≡ with_command_of self command }
    {
        Core { command, ..self }
    }

    // An order that writes no command.
    pub(crate) fn ordered(
        self,
        order: Order,
        call: Call,
        exchange: Exchange,
        buffer: &mut [u8],
    ) -> Progress
        requires { buffer_need ≤ length buffer.old }
        ensures { (f : Arrays) → progressed result f buffer.new ≡ orders_of self f (order_of order) call exchange buffer.old }
    {
        let core = self.running(call, exchange);
        let output = match order {
            Order::Ack => {
                octets::copy(&ACK_BYTES, buffer);
                Output::Ack
            }
            Order::Read(ms) => Output::Read(ms),
            Order::Drain => Output::Drain,
            Order::Pause(us) => Output::Pause(us),
        };
        Progress { core, output }
    }

    // A command is ordered. What cannot be framed is refused.
    // Kept: a command is of the pending array or of a stage, so that no struct could hold its bytes without a copy.
    pub(crate) fn sent(
        self,
        call: Call,
        code: u8,
        clock: u32,
        bytes: &[u8],
        buffer: &mut [u8],
    ) -> Progress
        requires { (length bytes.now ≤ data_limit) × (buffer_need ≤ length buffer.old) }
        ensures { (f : Arrays) → progressed result f buffer.new ≡ sends_of self f call (cmd code clock bytes.now) buffer.old }
    {
        match build_command(code, bytes, buffer) {
            Ok(len) => Progress {
                core: self.running(call, Exchange::start(code, clock)),
                output: Output::Command(len),
            },
            Err(refusal) => self.refused(refusal),
        }
    }

    // The command of the call's stage is ordered, which may be the pending one.
    pub(crate) fn send(self, call: Call, command: &[u8; DATA_LIMIT], buffer: &mut [u8]) -> Progress
        requires { (self.command ≤ data_limit) × (buffer_need ≤ length buffer.old) }
        ensures { (f : List ℕ) → progressed result (arrays command.now f) buffer.new ≡ stage_of self (arrays command.now f) call buffer.old }
    {
        let pending = &command[..self.command];
        let next = calls::command(call.kind, call.stage, call.cursor, pending);
        match next.bytes {
            Data::Pending => self.sent(call, next.code, next.clock, pending, buffer),
            Data::Own(own) => self.sent(call, next.code, next.clock, own.as_slice(), buffer),
        }
    }

    // The call ends.
    pub(crate) fn ended(self, output: Output) -> Progress
        ensures { (f : Arrays) (b : List ℕ) → progressed result f b ≡ ends_of self f output b }
    {
        let core = self.running(Call::none(), self.exchange);
        Progress { core, output }
    }

    // Refused, and nothing changes.
    pub(crate) fn refused(self, refusal: Refusal) -> Progress
        ensures { (f : Arrays) (b : List ℕ) → progressed result f b ≡ unchanged self f refusal b }
    {
        Progress {
            core: self,
            output: Output::Refused(refusal),
        }
    }

    // What the host returns for an order: it is refused where it does not fit the order, where the buffer is short or the packet over-long.
    // Kept: command, found bytes and buffer are three memories, of which each function lends some: `Lent` says of all three what is asked.
    pub(crate) fn event(
        self,
        event: Event,
        packet: &[u8],
        command: &mut [u8; DATA_LIMIT],
        found: &mut [u8; FOUND_LIMIT],
        buffer: &mut [u8],
    ) -> Progress
        requires { is_valid_of self ≡ true }
        ensures { progressed result (arrays command.new found.new) buffer.new ≡ event_core self (arrays command.old found.old) (event_of event packet.now) buffer.old }
    {
        let call = self.call;
        let exchange = self.exchange;
        if call.kind == NO_CALL_KIND {
            return self.refused(Refusal::OutOfTurn);
        }
        let Some(transition) = call.transition(exchange, event, packet) else {
            return self.refused(Refusal::OutOfTurn);
        };
        if buffer.len() < BUFFER_NEED {
            return self.refused(Refusal::ShortBuffer);
        }
        if is_long(event, packet) {
            return self.refused(Refusal::OverLong);
        }
        match transition {
            Transition::Orders(order, call, x) => self.ordered(order, call, x, buffer),
            Transition::Sends(call) => self.send(call, command, buffer),
            Transition::Ends(end) => self.replied(end, packet, command, found, buffer),
        }
    }

    // `Chipset::new` begins: ACK is written.
    pub(crate) fn open(self, buffer: &mut [u8]) -> Progress
        requires { buffer_need ≤ length buffer.old }
        ensures { (f : Arrays) → progressed result f buffer.new ≡ open_core self f buffer.old }
    {
        let exchange = self.exchange;
        let call = Call::first(OPENING_KIND).at(OPENING_ACK_PHASE);
        self.with_found(0)
            .ordered(Order::Ack, call, exchange, buffer)
    }

    // A call starts, whose bytes have been put by: it is refused, or its first command is ordered.
    pub(crate) fn start(
        self,
        start: Result<Start, Refusal>,
        command: &[u8; DATA_LIMIT],
        buffer: &mut [u8],
    ) -> Progress
        requires { StartFits start × (buffer_need ≤ length buffer.old) }
        ensures { (f c₀ : List ℕ) (s : StartOf) → Starts start c₀ command.now s → progressed result (arrays command.now f) buffer.new ≡ start_on self (arrays c₀ f) s buffer.old }
    {
        let start = match start {
            Ok(start) => start,
            Err(refusal) => return self.refused(refusal),
        };
        match start {
            Start::Command(first) => self.with_command(first.len).sent(
                Call::first(first.kind),
                first.code,
                first.clock,
                &command[..first.len],
                buffer,
            ),
            Start::Staged(kind, n) => self
                .with_command(n)
                .send(Call::first(kind), command, buffer),
        }
    }
}
