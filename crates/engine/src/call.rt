// A running call, as a few numbers: what an event does to it, apart from buffer and session.
ghost use Rattle.std.specs.Prelude.{◌≡◌, ℕ, List};
ghost use Rattle.errors.specs.declared.Fault.TheVariants.{Transport};
ghost use Rattle.exchange.specs.Exchange.{on_write, on_pause};
ghost use Rattle.exchange.specs.Steps.{event_of};
ghost use Rattle.engine.specs.Ends.{told, reply_in};
ghost use Rattle.engine.specs.Transitions.{no_call_of, first_call, at, to_stage, to_cursor, transition_in, transition_of, reset_ack_transition, reset_pause_transition, opening_ack_transition, opening_reads_transition, pause_transition, unfitting, refuses, valid_call};

use calls::{LAST_KIND, LAST_STAGE, NO_CALL_KIND};
use errors::Fault;
use exchange::{Advanced, Event, Exchange, Order};

// Kept: numbers and no enum, since a phase lies in the C session, where any byte may stand, and `transition_of` speaks of all numbers.
// What a call waits for: its command's exchange, a reset's ACK or pause, the opening's ACK or reads, a pause.
pub const EXCHANGE_PHASE: u8 = 0;

pub const RESET_ACK_PHASE: u8 = 1;

pub const RESET_PAUSE_PHASE: u8 = 2;

pub const OPENING_ACK_PHASE: u8 = 3;

pub const OPENING_READS_PHASE: u8 = 4;

pub const PAUSE_PHASE: u8 = 5;

// The pause behind a reset's ACK in µs, and the ms of an opening's reads.
const RESET_PAUSE_TIME: u32 = 10000;

const OPENING_READ_TIME: u32 = 10;

// What runs, which of its commands is on or comes next, where it stands in a list of its own, and what is awaited. The cursor is the
// call's: nothing here looks into it, and any byte is in its range.
#[repr(C)]
#[derive(Clone, Copy, Debug, PartialEq, Eq)]
pub struct Call {
    pub kind: u8,
    pub stage: u8,
    pub cursor: u8,
    pub phase: u8,
}

// How a command ends: a reset is done, the packet that ends its exchange is in, or it failed.
#[derive(Clone, Copy, Debug, PartialEq, Eq)]
pub enum End {
    ResetDone,
    Arrived,
    Failed(Fault),
}

impl End {
    // The response to the command of this code, which stands behind the payload's identifier and code, or the fault; a reset has none.
    pub(crate) fn response<'p>(self, code: u8, packet: &'p [u8]) -> Result<&'p [u8], Fault>
        ensures { told result ≡ reply_in code packet.now self }
    {
        match self {
            End::ResetDone => Ok(&packet[..0]),
            End::Arrived => {
                let payload = exchange::checked_payload(packet, &[code])?;
                Ok(&payload[2..])
            }
            End::Failed(fault) => Err(fault),
        }
    }
}

// What an event that fits does to a call: an order follows, the command of the call's stage comes next, or the command ends.
// Kept: the ways that an event takes a call on, none of them an answer or a refusal.
#[derive(Clone, Copy, Debug, PartialEq, Eq)]
pub enum Transition {
    Orders(Order, Call, Exchange),
    Sends(Call),
    Ends(End),
}

// A write's event: what follows it, or the end with 7.
fn after_write(event: Event, next: Transition) -> Option<Transition>
    ensures { (code : ℕ) (p : List ℕ) → transition_in code p result ≡ on_write unfitting (transition_in code p (Some next)) (refuses Transport) (event_of event p) }
{
    match event {
        Event::Ok => Some(next),
        Event::Bad => Some(Transition::Ends(End::Failed(Fault::Transport))),
        _ => None,
    }
}

// A pause's event.
fn after_pause(event: Event, next: Transition) -> Option<Transition>
    ensures { (code : ℕ) (p : List ℕ) → transition_in code p result ≡ on_pause unfitting (transition_in code p (Some next)) (event_of event p) }
{
    match event {
        Event::Slept => Some(next),
        _ => None,
    }
}

impl Call {
    // No call runs.
    pub fn none() -> Call
        ensures { result ≡ no_call_of }
    {
        Call::first(NO_CALL_KIND)
    }

    // Every field is in its range.
    #[tactic(auto, using(framing::specs::Rules::steps), unfolding(crate::specs::Transitions::valid_call))]
    pub(crate) fn is_valid(self) -> bool
        ensures { result ≡ valid_call self }
    {
        self.kind <= LAST_KIND && self.stage <= LAST_STAGE && self.phase <= PAUSE_PHASE
    }

    // At the first command of a call.
    pub(crate) fn first(kind: u8) -> Call
        ensures { result ≡ first_call kind }
    {
        Call {
            kind,
            stage: 0,
            cursor: 0,
            phase: EXCHANGE_PHASE,
        }
    }

    pub(crate) fn at(self, phase: u8) -> Call
        ensures { result ≡ at self phase }
    {
        Call { phase, ..self }
    }

    // At the command of a stage.
    pub(crate) fn to_stage(self, stage: u8) -> Call
        ensures { result ≡ to_stage self stage }
    {
        Call {
            stage,
            phase: EXCHANGE_PHASE,
            ..self
        }
    }

    // The same with another cursor.
    pub(crate) fn to_cursor(self, stage: u8, cursor: u8) -> Call
        ensures { result ≡ to_cursor self stage cursor }
    {
        Call {
            cursor,
            ..self.to_stage(stage)
        }
    }

    // Kept: `on_opening_ack` differs in the order and the phase, and each meets a definition of its own; one function that takes order and phase would be no plainer than the two.
    fn on_reset_ack(self, exchange: Exchange, event: Event) -> Option<Transition>
        ensures { (code : ℕ) (p : List ℕ) → transition_in code p result ≡ reset_ack_transition self exchange (event_of event p) }
    {
        let next = Transition::Orders(
            Order::Pause(RESET_PAUSE_TIME),
            self.at(RESET_PAUSE_PHASE),
            exchange,
        );
        after_write(event, next)
    }

    fn on_reset_pause(self, event: Event) -> Option<Transition>
        ensures { (code : ℕ) (p : List ℕ) → transition_in code p result ≡ reset_pause_transition (event_of event p) }
    {
        after_pause(event, Transition::Ends(End::ResetDone))
    }

    fn on_opening_ack(self, exchange: Exchange, event: Event) -> Option<Transition>
        ensures { (code : ℕ) (p : List ℕ) → transition_in code p result ≡ opening_ack_transition self exchange (event_of event p) }
    {
        let next = Transition::Orders(
            Order::Read(OPENING_READ_TIME),
            self.at(OPENING_READS_PHASE),
            exchange,
        );
        after_write(event, next)
    }

    fn on_opening_reads(self, exchange: Exchange, event: Event) -> Option<Transition>
        ensures { (code : ℕ) (p : List ℕ) → transition_in code p result ≡ opening_reads_transition self exchange (event_of event p) }
    {
        match event {
            Event::Packet => Some(Transition::Orders(
                Order::Read(OPENING_READ_TIME),
                self,
                exchange,
            )),
            Event::Time | Event::Fail => Some(Transition::Sends(self.at(EXCHANGE_PHASE))),
            _ => None,
        }
    }

    fn on_pause(self, event: Event) -> Option<Transition>
        ensures { (code : ℕ) (p : List ℕ) → transition_in code p result ≡ pause_transition self (event_of event p) }
    {
        after_pause(event, Transition::Sends(self.at(EXCHANGE_PHASE)))
    }

    // What an event does to the call.
    pub(crate) fn transition(
        self,
        exchange: Exchange,
        event: Event,
        packet: &[u8],
    ) -> Option<Transition>
        ensures { transition_in exchange.code packet.now result ≡ transition_of self exchange (event_of event packet.now) }
    {
        let phase = self.phase;
        match phase {
            EXCHANGE_PHASE => {}
            RESET_ACK_PHASE => return self.on_reset_ack(exchange, event),
            RESET_PAUSE_PHASE => return self.on_reset_pause(event),
            OPENING_ACK_PHASE => return self.on_opening_ack(exchange, event),
            OPENING_READS_PHASE => return self.on_opening_reads(exchange, event),
            PAUSE_PHASE => return self.on_pause(event),
            _ => return None,
        }
        let end = match exchange.advance(event, packet) {
            Advanced::Unfit => return None,
            Advanced::Pending(order, x) => return Some(Transition::Orders(order, self, x)),
            Advanced::Arrived => End::Arrived,
            Advanced::Failed(fault) => End::Failed(fault),
        };
        // Behind a reset's exchange follows ACK, whatever came of it.
        if calls::is_reset(self.kind, self.stage) {
            return Some(Transition::Orders(Order::Ack, self.at(RESET_ACK_PHASE), exchange));
        }
        Some(Transition::Ends(end))
    }
}
