// One acknowledged command: steps 1 to 5 of document 01's exchange (`command` of chipset.rs).
#![tactic(auto, using(crate::specs::Rules::step_rules), unfolding(crate::specs::Steps::phase_in, crate::specs::Packets::ack_led, crate::specs::Packets::has_start))]

ghost use Rattle.std.specs.Prelude.{◌≡◌, ℕ, List, slice_index, Bool, MatchResult};
ghost use Rattle.exchange.specs.Packets.{failed, payload_reply};
ghost use Rattle.exchange.specs.Exchange.{advance as advance_of, sending, reading, waiting, cancelling, rejecting, draining, on_packet};
ghost use Rattle.exchange.specs.Steps.{exchange_at, phase_in, event_of, result_in, SameCommand, Handled, sending_phase};
ghost use Rattle.exchange.specs.Spans.{is_response, frame_length, part_at, response_span, payload_fault, fault_of};
ghost use Rattle.exchange.specs.Responses.{Fills, Unfilled, Responds, Fails};

use errors::Fault;
use framing::frame::{CONTROLLER_TO_HOST, Rcs956Format};
use framing::{Format, FrameType};

// What the host returns. A packet's bytes are lent beside it.
// Kept: a host gives an event's number and the bytes by two arguments of the C interface, and the theorems take the two one by one (`event_of`).
#[derive(Clone, Copy, Debug, PartialEq, Eq)]
pub enum Event {
    Ok,
    Bad,
    Packet,
    Time,
    Fail,
    Late,
    Slept,
}

// An order that writes no command; a read has its ms, a pause its µs. An exchange itself never pauses.
#[derive(Clone, Copy, Debug, PartialEq, Eq)]
pub enum Order {
    Ack,
    Read(u32),
    Drain,
    Pause(u32),
}

// An exchange: its phase, the command's code and the command's clock in ms.
// Kept: the phase is a number: an exchange lies in session memory that C lends, where any byte may stand, and `phase_in` gives each one a meaning.
#[repr(C)]
#[derive(Clone, Copy, Debug, PartialEq, Eq)]
pub struct Exchange {
    pub phase: u8,
    pub code: u8,
    pub clock: u32,
}

// What an event does: it does not fit, an order follows, the command's packet is in (step 5 is next), or the exchange has failed.
#[derive(Clone, Copy, Debug, PartialEq, Eq)]
pub enum Advanced {
    Unfit,
    Pending(Order, Exchange),
    Arrived,
    Failed(Fault),
}

// The ms in which the first packet is due.
const FIRST_READ_TIME: u32 = 100;

const ERROR_IDENTIFIER: u8 = 0x7F;

impl Exchange {
    // The frame is being written.
    pub const SENDING_PHASE: u8 = 0;

    // The first packet is awaited.
    pub const READING_PHASE: u8 = 1;

    // A packet is awaited under the clock.
    pub const WAITING_PHASE: u8 = 2;

    // ACK is being written after a failed write.
    pub const UNSENT_PHASE: u8 = 3;

    // ACK is being written at the deadline.
    pub const OVERDUE_PHASE: u8 = 4;

    // ACK is being written after a false start.
    pub const REJECTING_PHASE: u8 = 5;

    // The drain; any number above is taken for it.
    pub const DRAINING_PHASE: u8 = 6;

    // The exchange whose frame is being written.
    pub fn start(code: u8, clock: u32) -> Exchange
        ensures { result ≡ exchange_at sending_phase code clock }
    {
        Exchange {
            phase: Self::SENDING_PHASE,
            code,
            clock,
        }
    }

    // What an event does to the exchange. A fault of step 5 may come out as `Arrived` or as `Failed`: `result_in` gives both the same meaning.
    pub fn advance(self, event: Event, packet: &[u8]) -> Advanced
        ensures result_value { result_in self packet.now result ≡ advance_of (phase_in self) (event_of event packet.now) }
        ensures same_command { SameCommand self result }
    {
        match self.phase {
            Self::SENDING_PHASE => self.on_sent(event),
            Self::READING_PHASE => self.on_first_read(event, packet),
            Self::WAITING_PHASE => self.on_later_read(event, packet),
            Self::UNSENT_PHASE => on_cancelled(event, Fault::Transport),
            Self::OVERDUE_PHASE => on_cancelled(event, Fault::TimeOut),
            Self::REJECTING_PHASE => self.on_rejected(event),
            _ => self.on_drain(event, packet),
        }
    }

    // An order follows, in a new phase.
    fn ordered(self, order: Order, phase: u8) -> Advanced
        ensures { result ≡ Advanced.Pending order (exchange_at phase self.code self.clock) }
    {
        Advanced::Pending(order, Exchange { phase, ..self })
    }

    // Step 1.
    fn on_sent(self, event: Event) -> Advanced
        ensures { (p : List ℕ) → Handled self p (advance_of (sending self.code self.clock) (event_of event p)) result }
    {
        match event {
            Event::Ok => self.ordered(Order::Read(FIRST_READ_TIME), Self::READING_PHASE),
            Event::Bad => self.ordered(Order::Ack, Self::UNSENT_PHASE),
            _ => Advanced::Unfit,
        }
    }

    // Step 2.
    fn on_first_read(self, event: Event, packet: &[u8]) -> Advanced
        ensures { Handled self packet.now (advance_of (reading self.code self.clock) (event_of event packet.now)) result }
    {
        match event {
            Event::Packet if packet.is_empty() => Advanced::Failed(Fault::TimeOut),
            Event::Packet if framing::has_sof(packet) => self.on_packet(packet),
            Event::Packet => self.ordered(Order::Ack, Self::REJECTING_PHASE),
            Event::Time => Advanced::Failed(Fault::TimeOut),
            Event::Fail => Advanced::Failed(Fault::Transport),
            _ => Advanced::Unfit,
        }
    }

    // Step 4. The deadline, and no other failure, is answered with ACK.
    fn on_later_read(self, event: Event, packet: &[u8]) -> Advanced
        ensures { Handled self packet.now (advance_of (waiting self.code self.clock) (event_of event packet.now)) result }
    {
        match event {
            Event::Packet if packet.is_empty() => Advanced::Failed(Fault::TimeOut),
            Event::Packet => self.on_packet(packet),
            Event::Time => Advanced::Failed(Fault::TimeOut), // no ACK
            Event::Fail => Advanced::Failed(Fault::Transport), // no ACK
            Event::Late => self.ordered(Order::Ack, Self::OVERDUE_PHASE),
            _ => Advanced::Unfit,
        }
    }

    // Steps 4 and 5: what follows an ACK in its packet is lost. A clock of 0 ms has passed at once.
    fn on_packet(self, packet: &[u8]) -> Advanced
        ensures { Handled self packet.now (on_packet self.code self.clock packet.now) result }
    {
        if !framing::starts_with(packet, &framing::ACK_BYTES) {
            return Advanced::Arrived;
        }
        if self.clock == 0 {
            return self.ordered(Order::Ack, Self::OVERDUE_PHASE);
        }
        self.ordered(Order::Read(self.clock), Self::WAITING_PHASE)
    }

    // Step 3: ACK was written, or that failed.
    fn on_rejected(self, event: Event) -> Advanced
        ensures { (p : List ℕ) → Handled self p (advance_of rejecting (event_of event p)) result }
    {
        match event {
            Event::Ok | Event::Bad => self.ordered(Order::Drain, Self::DRAINING_PHASE),
            _ => Advanced::Unfit,
        }
    }

    // Step 3: a drain ends at a time-out, an empty packet or its deadline.
    fn on_drain(self, event: Event, packet: &[u8]) -> Advanced
        ensures { Handled self packet.now (advance_of draining (event_of event packet.now)) result }
    {
        match event {
            Event::Packet if packet.is_empty() => Advanced::Failed(Fault::FalseStart),
            Event::Packet | Event::Fail => self.ordered(Order::Drain, Self::DRAINING_PHASE),
            Event::Time | Event::Late => Advanced::Failed(Fault::FalseStart),
            _ => Advanced::Unfit,
        }
    }
}

// Steps 1 and 4: ACK was written, or that failed.
fn on_cancelled(event: Event, fault: Fault) -> Advanced
    ensures { (x : Exchange) (p : List ℕ) → Handled x p (advance_of (cancelling fault) (event_of event p)) result }
{
    match event {
        Event::Ok | Event::Bad => Advanced::Failed(fault),
        _ => Advanced::Unfit,
    }
}

// The code that stands at a command's start.
fn code_of(command: &[u8]) -> u8
    ensures { result ≡ slice_index command.now 0 }
{
    command.first().copied().unwrap_or(0)
}

// The payload of a data frame that fills the packet; or the fault of any other packet.
fn filling_payload(packet: &[u8]) -> Result<&[u8], Fault>
    ensures { MatchResult result (λ payload. Fills packet.now payload.now) (λ fault. Unfilled packet.now fault) }
{
    let Some(found) = framing::parse(Rcs956Format::format(), packet) else {
        return Err(Fault::BrokenFrame);
    };
    if frame_length(found) != packet.len() {
        return Err(Fault::Length);
    }
    let FrameType::Data { start, len, .. } = found else {
        return Err(Fault::FrameKind);
    };
    Ok(&packet[start..start + len])
}

// The length of a frame that was found.
fn frame_length(found: FrameType) -> usize
    ensures { result ≡ frame_length found }
{
    match found {
        FrameType::Ack(frame) | FrameType::Error(frame) | FrameType::Data { frame, .. } => frame,
    }
}

// Whether a payload is a response to a command of this code; or the fault by the first check that fails. The code's check is the last.
fn check_payload(payload: &[u8], code: u8) -> Result<(), Fault>
    ensures { MatchResult result (λ _. is_response (payload_reply code payload.now) ≡ Bool.true) (λ fault. payload_reply code payload.now ≡ failed fault) }
{
    match payload {
        [ERROR_IDENTIFIER, ..] => Err(Fault::Status(ERROR_IDENTIFIER)),
        [CONTROLLER_TO_HOST, answer, ..] if *answer == code.wrapping_add(1) => Ok(()),
        [CONTROLLER_TO_HOST, ..] => Err(Fault::Code),
        _ => Err(Fault::Identifier),
    }
}

// Step 5: the payload (identifier, code and response) of an intact response to a command, whose code stands at its start; or the packet's fault.
pub fn checked_payload<'p, 'c>(packet: &'p [u8], command: &'c [u8]) -> Result<&'p [u8], Fault>
    ensures { MatchResult result (λ payload. Responds (slice_index command.now 0) packet.now payload.now) (λ fault. Fails (slice_index command.now 0) packet.now fault) }
{
    let payload = filling_payload(packet)?;
    check_payload(payload, code_of(command))?;
    Ok(payload)
}

// The same for whoever takes the payload alone: the empty part where the packet is no such response.
pub fn response_payload<'p, 'c>(packet: &'p [u8], command: &'c [u8]) -> &'p [u8]
    ensures { result.now ≡ part_at (response_span (slice_index command.now 0) packet.now) packet.now }
{
    match checked_payload(packet, command) {
        Ok(payload) => payload,
        Err(_) => &packet[..0],
    }
}

// The fault of a payload that is no response.
fn payload_fault(payload: &[u8]) -> Fault
    ensures { result ≡ payload_fault payload.now }
{
    match payload {
        [ERROR_IDENTIFIER, ..] => Fault::Status(ERROR_IDENTIFIER),
        [CONTROLLER_TO_HOST, ..] => Fault::Code,
        _ => Fault::Identifier,
    }
}

// Step 5: the fault of a packet that is no intact response, whatever the command, by the first check that fails. The code's check is the last.
pub fn fault(packet: &[u8]) -> Fault
    ensures { result ≡ fault_of packet.now }
{
    match filling_payload(packet) {
        Ok(payload) => payload_fault(payload),
        Err(fault) => fault,
    }
}
