// Packets of boards that pad the start: up to 16 zeros before the start bytes (document 02, N2).
#![tactic(auto, using(errors::specs::Rules::picks), unfolding(errors::specs::Choice::pick, crate::specs::Unpadded::extra_at_of, crate::specs::Padded::extra_zeros_of, crate::specs::Padded::parse_padded_of))]

ghost use Rattle.std.specs.Prelude.{◌≡◌, ◌≤◌};
ghost use Rattle.framing.specs.Names.{extended_start};
ghost use Rattle.framing.specs.Padded.{most_zeros, extra_zeros_of, zeros_in, parse_padded_of};
ghost use Rattle.framing.specs.Padded.{shifted_by};
ghost use Rattle.framing.specs.Unpadded.{extra_at_of};
ghost use Rattle.framing.specs.PaddedAnswers.{payload_start};

use super::{FrameFormat, FrameType, names};

// What `parse_padded` answers: how many zeros it stepped over, and the answer, whose place is that of the packet as it came. A frame's
// length counts no extra zeros.
#[derive(Clone, Copy, Debug, PartialEq, Eq)]
pub struct Padded {
    pub zeros: usize,
    pub found: Option<FrameType>,
}

pub const MOST_ZEROS: usize = 16;

// The extra zeros of a packet whose first byte other than 0 is `byte`, behind n zeros.
fn extra_at(n: usize, byte: u8) -> usize
    ensures { result ≡ extra_at_of n byte }
{
    if byte != names::START_END || n < 2 || MOST_ZEROS < n - 2 {
        return 0;
    }
    n - 2
}

// How many extra zeros a packet has.
pub fn extra_zeros(packet: &[u8]) -> usize
    ensures { result ≡ extra_zeros_of packet.now }
{
    let end = packet.len().min(MOST_ZEROS + names::SOF_SIZE);
    match packet[..end].iter().position(|byte| *byte != 0) {
        Some(n) => extra_at(n, packet[n]),
        None => 0,
    }
}

// How many bytes are stepped over in a mode.
fn zeros_in(padded: bool, packet: &[u8]) -> usize
    ensures { result ≡ zeros_in padded packet.now }
{
    if padded { extra_zeros(packet) } else { 0 }
}

// The answer with its place counted from `zeros` bytes further in front.
fn shifted_by(zeros: usize, found: Option<FrameType>) -> Option<FrameType>
    requires { (zeros ≤ most_zeros) × (payload_start found ≤ extended_start) }
    ensures { result ≡ shifted_by zeros found }
{
    match found {
        Some(FrameType::Data { start, len, frame }) => Some(FrameType::Data {
            start: zeros + start,
            len,
            frame,
        }),
        other => other,
    }
}

// What the packet starts with, behind its extra zeros where the padded mode is on.
pub fn parse_padded(format: FrameFormat, padded: bool, packet: &[u8]) -> Padded
    ensures { result ≡ parse_padded_of format padded packet.now }
{
    let zeros = zeros_in(padded, packet);
    let found = super::parse(format, &packet[zeros..]);
    Padded {
        zeros,
        found: shifted_by(zeros, found),
    }
}
