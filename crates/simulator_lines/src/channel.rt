// The chip's end: the chip, and the packets that it sent and that are not yet read, in a ring of places, each with room for a packet.
#![tactic(auto, using(errors::specs::Rules::picks), unfolding(errors::specs::Choice::pick, crate::specs::Represents::next_event_of))]

ghost use Rattle.std.specs.Prelude.{◌≡◌, ◌%◌, [], length, take};
ghost use Rattle.exchange.specs.Exchange as Ordered;
ghost use Rattle.chip_protocol.specs.Channel.{simulated, behind_next, Channel as Simulated};
ghost use Rattle.chip_protocol.specs.Names.{longest_packet};
ghost use Rattle.simulator_lines.specs.Ring.{places_limit, kept_with, packet_in, packet_at, unread_in};
ghost use Rattle.simulator_lines.specs.Plays.{limited_after};
ghost use Rattle.simulator_lines.specs.Represents.{next_event_of, ChannelIn};

use bench::{prefix, text};
use exchange::Event;
use framing::ACK_BYTES;
use simulated_chip::chip::Chip;
use simulated_chip::names::PACKET_SIZE;

// How many packets are kept unread: one more is lost. An opening leaves none, and only a command with a clock of 0 ms leaves one.
const PLACES: usize = 128;

// A packet, at the start of its place.
// Kept: fixed memory, which the struct owns with its number.
#[derive(Clone, Copy)]
pub struct Packet {
    pub bytes: [u8; PACKET_SIZE],
    pub len: usize,
}

// The places, that of the next packet, and how many packets there are.
// Kept: fixed memory, which the struct owns with its number.
#[derive(Clone, Copy)]
pub struct Unread {
    pub places: [Packet; PLACES],
    pub first: usize,
    pub count: usize,
}

// The chip with its field of cards, and its packets unread.
#[derive(Clone, Copy)]
pub struct Channel {
    pub chip: Chip,
    pub unread: Unread,
}

impl Packet {
    // As much of a packet as a place has room for.
    fn new(packet: &[u8]) -> Packet
        ensures { packet_in result ≡ take longest_packet packet.now }
    {
        let packet = prefix(PACKET_SIZE, packet);
        let mut bytes = [0u8; PACKET_SIZE];
        text::put(packet, &mut bytes, 0);
        Packet {
            bytes,
            len: packet.len(),
        }
    }

    fn bytes(&self) -> &[u8]
        ensures { result.now ≡ packet_in self.now }
    {
        prefix(self.len, &self.bytes)
    }
}

impl Unread {
    pub fn nothing() -> Unread
        ensures { unread_in result ≡ [] }
    {
        let place = Packet {
            bytes: [0u8; PACKET_SIZE],
            len: 0,
        };
        Unread {
            places: [place; PLACES],
            first: 0,
            count: 0,
        }
    }

    // A packet more behind the others.
    pub(crate) fn push(&mut self, packet: &[u8])
        ensures { unread_in self.new ≡ kept_with (unread_in self.old) (take longest_packet packet.now) }
    {
        if self.count < PLACES {
            let at = (self.first % PLACES + self.count) % PLACES;
            self.places[at] = Packet::new(packet);
            self.count += 1;
        }
    }

    // The next packet, where there is one.
    pub(crate) fn next(&self) -> &[u8]
        ensures { result.now ≡ packet_at self.now.places self.now.first }
    {
        self.places[self.first % PLACES].bytes()
    }

    // What a read or a drain gets.
    pub(crate) fn next_event(&self) -> Event
        ensures { result ≡ next_event_of self.now.count }
    {
        if self.count == 0 {
            Event::Time
        } else {
            Event::Packet
        }
    }

    // The others, without the next.
    pub(crate) fn drop_next(&mut self)
        ensures { unread_in self.new ≡ behind_next simulated (unread_in self.old) }
    {
        if self.count > 0 {
            self.first = (self.first % PLACES + 1) % PLACES;
            self.count -= 1;
        }
    }
}

impl Channel {
    // An empty field, and nothing unread.
    pub(crate) fn fresh() -> Channel {
        Channel {
            chip: Chip::fresh(),
            unread: Unread::nothing(),
        }
    }

    // The chip hears the bytes written, and its packets are unread behind the others; where it refuses, it sends nothing.
    pub(crate) fn write(&mut self, written: &[u8])
        ensures { (l : Simulated simulated) → ChannelIn self.old l → ChannelIn self.new (limited_after l (Ordered.write written.now)) }
    {
        let mut packet = [0u8; PACKET_SIZE];
        let sent = self.chip.step(written, &mut packet).unwrap_or(None);
        if let Some(n) = sent {
            self.unread.push(&ACK_BYTES);
            self.unread.push(prefix(n, &packet));
        }
    }
}
