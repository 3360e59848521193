// A call played to its end against the chip: a write succeeds, a read or a drain gets the next packet or times out, a pause is over.
#![tactic(auto, using(errors::specs::Rules::picks), unfolding(errors::specs::Choice::pick))]

ghost use Rattle.std.specs.Prelude.{◌≡◌, IsNone};
ghost use Rattle.std.specs.Option.{unwrap_or};
ghost use Rattle.simulator_lines.specs.Plays.{Playing, played_from, event_limit};
ghost use Rattle.simulator_lines.specs.Represents.{order_asked, PlayIn};

use super::channel::Channel;
use bench::{hex, lines, prefix, text};
use bench_session::{BUFFER_SIZE, OUT_ROOM, output};
use engine::running::Output;
use engine::session::Session;
use exchange::Event;
use framing::ACK_SIZE;

// What an output asks of the channel: a write of so many bytes, the next packet, or a pause.
#[derive(Clone, Copy, Debug, PartialEq, Eq)]
pub enum Order {
    Write(usize),
    Next,
    Pause,
}

// None where the call is over.
fn order_of(output: Output) -> Option<Order>
    ensures { result ≡ order_asked output }
{
    match output {
        Output::Ack => Some(Order::Write(ACK_SIZE)),
        Output::Command(n) => Some(Order::Write(n)),
        Output::Read(_) | Output::Drain => Some(Order::Next),
        Output::Pause(_) => Some(Order::Pause),
        _ => None,
    }
}

// The reader, the chip's end, whether orders and events are printed, and room for the engine's bytes and for a text.
#[derive(Clone, Copy)]
pub struct Simulator {
    pub session: Session,
    pub channel: Channel,
    pub trace: bool,
    pub buffer: [u8; BUFFER_SIZE],
    pub out: [u8; OUT_ROOM],
}

// The trace of an order: two spaces, and the line that `session` prints for it.
fn trace_order(
    rt: &impl Print,
    trace: bool,
    output: Output,
    buffer: &[u8; BUFFER_SIZE],
    out: &mut [u8; OUT_ROOM],
) {
    if trace {
        let n = output::print(output, buffer, out);
        let end = text::put(b"\n", out, n);
        lines::write(rt, b"  ", 2);
        lines::write(rt, out, end);
    }
}

fn put_event(event: Event, packet: &[u8], out: &mut [u8]) -> usize {
    match event {
        Event::Packet => {
            let at = text::put(b"  pkt ", out, 0);
            hex::put(packet, out, at)
        }
        Event::Time => text::put(b"  time", out, 0),
        Event::Slept => text::put(b"  slept", out, 0),
        _ => text::put(b"  ok", out, 0),
    }
}

// The trace of an event: two spaces, and its line.
fn trace_event(
    rt: &impl Print,
    trace: bool,
    event: Event,
    packet: &[u8],
    out: &mut [u8; OUT_ROOM],
) {
    if trace {
        let n = put_event(event, packet, out);
        let end = text::put(b"\n", out, n);
        lines::write(rt, out, end);
    }
}

// More events than a call takes: a list of 16 system codes takes 96, or 100 with the RF field off, and an opening 36 and one for each packet unread.
const EVENT_LIMIT: usize = 4096;

impl Simulator {
    fn on_write(&mut self, rt: &impl Print, n: usize) -> Output
        ensures { (output : Output) → order_asked output ≡ Some (Order.Write n) → (p : Playing) → PlayIn self.old output p → PlayIn self.new result (played_from 1 p) }
    {
        trace_event(rt, self.trace, Event::Ok, b"", &mut self.out);
        self.channel.write(prefix(n, &self.buffer));
        let step = self.session.event(Event::Ok, b"", &mut self.buffer);
        self.session = step.session;
        step.output
    }

    fn on_next(&mut self, rt: &impl Print) -> Output
        ensures { (output : Output) → order_asked output ≡ Some Order.Next → (p : Playing) → PlayIn self.old output p → PlayIn self.new result (played_from 1 p) }
    {
        let event = self.channel.unread.next_event();
        let packet = self.channel.unread.next();
        trace_event(rt, self.trace, event, packet, &mut self.out);
        let step = self.session.event(event, packet, &mut self.buffer);
        self.channel.unread.drop_next();
        self.session = step.session;
        step.output
    }

    fn on_pause(&mut self, rt: &impl Print) -> Output
        ensures { (output : Output) → order_asked output ≡ Some Order.Pause → (p : Playing) → PlayIn self.old output p → PlayIn self.new result (played_from 1 p) }
    {
        trace_event(rt, self.trace, Event::Slept, b"", &mut self.out);
        let step = self.session.event(Event::Slept, b"", &mut self.buffer);
        self.session = step.session;
        step.output
    }

    // The order of an output, answered by the channel: the next output; none where the call is over.
    fn turn(&mut self, rt: &impl Print, output: Output) -> Option<Output>
        ensures over { IsNone result → order_asked output ≡ None }
        ensures next { (p : Playing) → PlayIn self.old output p → PlayIn self.new (unwrap_or result output) (played_from 1 p) }
    {
        let order = order_of(output)?;
        trace_order(rt, self.trace, output, &self.buffer, &mut self.out);
        match order {
            Order::Write(n) => Some(self.on_write(rt, n)),
            Order::Next => Some(self.on_next(rt)),
            Order::Pause => Some(self.on_pause(rt)),
        }
    }

    // The call to its end: its last output.
    pub(crate) fn to_end(&mut self, rt: &impl Print, first: Output) -> Output
        ensures { (p : Playing) → PlayIn self.old first p → PlayIn self.new result (played_from event_limit p) }
    {
        let mut output = first;
        for _ in 0..EVENT_LIMIT {
            let Some(next) = self.turn(rt, output) else {
                return output;
            };
            output = next;
        }
        output
    }
}
