// Frames on the host link of the PN532 family (framing.rs): checksums, the six settings, build and parse.
#![tactic(auto, using(crate::specs::Rules::prefixes), unfolding(errors::specs::Choice::pick, crate::specs::Build::place_of, crate::specs::Build::limit_of, crate::specs::Checks::marked, crate::specs::Parse::extends, crate::specs::Frames::head_of, crate::specs::Frames::length_bytes, crate::specs::Build::build_of, crate::specs::Checks::checked, crate::specs::Checks::frame_at_of, crate::specs::Parse::data_of, crate::specs::Frames::data_start_of, crate::specs::Build::enclosed, crate::specs::Parse::extended_of, crate::specs::Checks::has_marker_of, crate::specs::Parse::is_error_of, crate::specs::Parse::normal_of, crate::specs::Checks::pair_length_of, crate::specs::Parse::parse_of, crate::specs::Parse::payload_of, errors::specs::Refusals::returned, errors::specs::Choice::same, crate::specs::Lists::starts))]

pub mod frame;
mod names;
pub mod padded;
pub mod settings;
mod sums;

ghost use Rattle.std.specs.Prelude.{◌≡◌, ◌+◌, ◌-◌, ◌^◌, ◌<◌, ◌≤◌, min, Bool, [], ◌∷◌, ◌++◌, length, drop, IfOk};
ghost use Rattle.framing.specs.Frames.{sof, longest, normal_head, extended_head, head_of, data_start_of};
ghost use Rattle.errors.specs.Choice.{same};
ghost use Rattle.errors.specs.Refusals.{returned};
ghost use Rattle.framing.specs.Lists.{starts};
ghost use Rattle.framing.specs.Names.{normal_start, extended_start, ending_size, longest_extended, shortest_extended};
ghost use Rattle.framing.specs.Build.{left, build_of, enclosed, place_of};
ghost use Rattle.framing.specs.Parse.{is_error_of, normal_of, extended_of, data_of, parse_of, payload_of};
ghost use Rattle.framing.specs.Checks.{has_marker_of, marked, pair_length_of, checked, frame_at_of};

use errors::Refusal;
pub use names::{ACK_BYTES, ACK_SIZE};
pub use settings::Format;
pub use sums::{checksum, checksum_matches, length_checksum};
use sums::{length_matches, pair_checksum};

// How the length of the payload is written.
#[derive(Clone, Copy, Debug, PartialEq, Eq)]
pub enum LengthEncoding {
    Normal,
    ExtendedLittleEndian,
    NormalOrExtendedBigEndian,
}

// How the chip reports an error.
#[derive(Clone, Copy, Debug, PartialEq, Eq)]
pub enum ErrorDetection {
    ErrorFrame,
    StatusByte,
}

// One of the settings, or any other choice of the three.
#[derive(Clone, Copy, Debug, PartialEq, Eq)]
pub struct FrameFormat {
    pub length: LengthEncoding,
    pub error: ErrorDetection,
    pub limit: usize,
}

// What a packet starts with: the kind, with the frame's length; of a data frame where its payload lies.
#[derive(Clone, Copy, Debug, PartialEq, Eq)]
pub enum FrameType {
    Ack(usize),
    Error(usize),
    Data {
        start: usize,
        len: usize,
        frame: usize,
    },
}

// Kept: the library's `starts_with`, promised in the words that other crates' clauses read (`starts`).
// Whether the packet starts with the prefix.
pub fn starts_with(packet: &[u8], prefix: &[u8]) -> bool
    ensures { result ≡ starts prefix.now packet.now }
{
    packet.starts_with(prefix)
}

pub fn has_sof(packet: &[u8]) -> bool
    ensures { result ≡ starts sof packet.now }
{
    packet.starts_with(&names::SOF)
}

// Kept: `==`, promised in the words that other crates' clauses read (`same`).
// Whether the packet is these bytes, no more and no less.
pub fn is_exactly(packet: &[u8], bytes: &[u8]) -> bool
    ensures { result ≡ same bytes.now packet.now }
{
    packet == bytes
}

// The error form's own test.
fn is_error(error: ErrorDetection, packet: &[u8]) -> bool
    ensures { result ≡ is_error_of error packet.now }
{
    match error {
        ErrorDetection::ErrorFrame => packet == names::ERROR_BYTES.as_slice(),
        ErrorDetection::StatusByte => {
            packet.get(names::STATUS_ERROR_OFFSET).copied() == Some(names::STATUS_ERROR_BYTE)
        }
    }
}

// The marker of an extended frame.
fn has_marker(packet: &[u8]) -> bool
    ensures { result ≡ has_marker_of packet.now }
{
    packet.len() >= names::NORMAL_START
        && packet[names::LEN_OFFSET] == names::MARKER_BYTE
        && packet[names::LCS_OFFSET] == names::MARKER_BYTE
}

// Whether the packet is laid out as an extended frame of the length form.
fn is_extended(encoding: LengthEncoding, packet: &[u8]) -> bool
    ensures { result ≡ marked encoding packet.now }
{
    match encoding {
        LengthEncoding::Normal => false,
        LengthEncoding::ExtendedLittleEndian | LengthEncoding::NormalOrExtendedBigEndian => {
            has_marker(packet)
        }
    }
}

// The length that two length bytes give, in the order of the form.
fn pair_length(encoding: LengthEncoding, first: u8, second: u8) -> usize
    ensures { (result ≡ pair_length_of encoding first second) × (result ≤ longest_extended) }
{
    let pair = [first, second];
    let length = match encoding {
        LengthEncoding::ExtendedLittleEndian => u16::from_le_bytes(pair),
        LengthEncoding::Normal | LengthEncoding::NormalOrExtendedBigEndian => u16::from_be_bytes(
            pair,
        ),
    };
    usize::from(length)
}

// Whether a frame fits the packet whose length bytes stand at `from` up to LCS and whose payload of `len` bytes follows at
// `start`, and both checksums and the postamble are right.
fn validated(packet: &[u8], from: usize, start: usize, len: usize) -> bool
    requires { (from < start) × (start + len < 2 ^ 32) }
    ensures { result ≡ checked from start len packet.now }
{
    let lcs = start - 1;
    let dcs = start + len;
    if packet.len() < dcs + names::ENDING_SIZE {
        return false;
    }
    length_matches(&packet[from..lcs], packet[lcs])
        && checksum_matches(&packet[start..dcs], packet[dcs])
        && packet[dcs + 1] == 0
}

// The data frame of these places, where it fits the packet.
fn frame_at(packet: &[u8], from: usize, start: usize, len: usize) -> Option<FrameType>
    requires { (from < start) × (start + len < 2 ^ 32) }
    ensures { result ≡ frame_at_of from start len packet.now }
{
    if !validated(packet, from, start, len) {
        return None;
    }
    Some(FrameType::Data {
        start,
        len,
        frame: start + len + names::ENDING_SIZE,
    })
}

// A normal frame at the start of a packet that has the start bytes.
// Kept: the start bytes are tested once, in `parse`, and these three are its parts: a type for such a packet would only carry the fact on.
fn parse_normal(packet: &[u8]) -> Option<FrameType>
    requires { starts sof packet.now ≡ Bool.true }
    ensures { result ≡ normal_of packet.now }
{
    if packet.len() < names::NORMAL_START {
        return None;
    }
    let len = usize::from(packet[names::LEN_OFFSET]);
    frame_at(packet, names::LEN_OFFSET, names::NORMAL_START, len)
}

// An extended frame at the start of a packet that has the start bytes and the marker.
fn parse_extended(encoding: LengthEncoding, packet: &[u8]) -> Option<FrameType>
    requires { (starts sof packet.now ≡ Bool.true) × (marked encoding packet.now ≡ Bool.true) }
    ensures { result ≡ extended_of encoding packet.now }
{
    if packet.len() < names::EXTENDED_START {
        return None;
    }
    let len = pair_length(
        encoding,
        packet[names::FIRST_LEN_OFFSET],
        packet[names::SECOND_LEN_OFFSET],
    );
    frame_at(packet, names::FIRST_LEN_OFFSET, names::EXTENDED_START, len)
}

// A data frame at the start of a packet that has the start bytes.
fn parse_data(encoding: LengthEncoding, packet: &[u8]) -> Option<FrameType>
    requires { starts sof packet.now ≡ Bool.true }
    ensures { result ≡ data_of encoding packet.now }
{
    if is_extended(encoding, packet) {
        parse_extended(encoding, packet)
    } else {
        parse_normal(packet)
    }
}

// What the packet starts with; bytes behind the frame are allowed.
pub fn parse(format: FrameFormat, packet: &[u8]) -> Option<FrameType>
    ensures { result ≡ parse_of format packet.now }
{
    if !has_sof(packet) {
        return None;
    }
    if packet == ACK_BYTES.as_slice() {
        return Some(FrameType::Ack(names::ACK_SIZE));
    }
    if is_error(format.error, packet) {
        return Some(FrameType::Error(packet.len()));
    }
    parse_data(format.length, packet)
}

// The part of the packet that a data frame's payload occupies; of any other answer the empty part.
pub fn payload(packet: &[u8], found: Option<FrameType>) -> &[u8]
    ensures { result.now ≡ payload_of found packet.now }
{
    let Some(FrameType::Data { start, len, .. }) = found else {
        return &packet[..0];
    };
    let from = start.min(packet.len());
    let count = len.min(packet.len() - from);
    &packet[from..from + count]
}

// Where the payload starts in a frame of n bytes of payload.
fn data_start(encoding: LengthEncoding, n: usize) -> usize
    ensures { result ≡ data_start_of encoding n }
{
    match encoding {
        LengthEncoding::Normal => names::NORMAL_START,
        LengthEncoding::ExtendedLittleEndian => names::EXTENDED_START,
        LengthEncoding::NormalOrExtendedBigEndian => {
            if n < names::SHORTEST_EXTENDED {
                names::NORMAL_START
            } else {
                names::EXTENDED_START
            }
        }
    }
}

// The longest payload that a length form can carry.
fn longest_payload(encoding: LengthEncoding) -> usize
    ensures { result ≡ longest encoding }
{
    match encoding {
        LengthEncoding::Normal => names::LONGEST_NORMAL,
        LengthEncoding::ExtendedLittleEndian | LengthEncoding::NormalOrExtendedBigEndian => {
            names::LONGEST_EXTENDED
        }
    }
}

fn put_normal_head(buffer: &mut [u8], n: usize)
    requires { (n < shortest_extended) × (normal_start ≤ length buffer.old) }
    ensures { buffer.new ≡ normal_head n ++ drop normal_start buffer.old }
{
    let len = n as u8;
    octets::copy(&[0x00, 0x00, 0xFF, len, length_checksum(len)], buffer);
}

fn put_extended_head(buffer: &mut [u8], lens: [u8; 2])
    requires { extended_start ≤ length buffer.old }
    ensures { buffer.new ≡ extended_head lens ++ drop extended_start buffer.old }
{
    let [first, second] = lens;
    let marker = names::MARKER_BYTE;
    let head = [
        0x00,
        0x00,
        0xFF,
        marker,
        marker,
        first,
        second,
        pair_checksum(first, second),
    ];
    octets::copy(&head, buffer);
}

// The head of a frame of n bytes of payload.
fn put_head(encoding: LengthEncoding, n: usize, buffer: &mut [u8])
    requires { (n ≤ longest encoding) × (data_start_of encoding n ≤ length buffer.old) }
    ensures { buffer.new ≡ head_of encoding n ++ drop (data_start_of encoding n) buffer.old }
{
    match encoding {
        LengthEncoding::Normal => put_normal_head(buffer, n),
        LengthEncoding::ExtendedLittleEndian => {
            put_extended_head(buffer, (n as u16).to_le_bytes())
        }
        LengthEncoding::NormalOrExtendedBigEndian => {
            if n < names::SHORTEST_EXTENDED {
                put_normal_head(buffer, n)
            } else {
                put_extended_head(buffer, (n as u16).to_be_bytes())
            }
        }
    }
}

// Puts head and ending around the n bytes of payload that stand at their place in the buffer.
fn enclose(encoding: LengthEncoding, n: usize, buffer: &mut [u8])
    requires { (n ≤ longest encoding) × (data_start_of encoding n + n + ending_size ≤ length buffer.old) }
    ensures { buffer.new ≡ enclosed encoding n buffer.old }
{
    let start = data_start(encoding, n);
    let end = start + n;
    put_head(encoding, n, buffer);
    let dcs = checksum(&buffer[start..end]);
    buffer[end] = dcs;
    buffer[end + 1] = 0x00;
}

// The place of n bytes of payload in a buffer of `room` bytes.
fn room_for(format: FrameFormat, n: usize, room: usize) -> Result<usize, Refusal>
    ensures place { result ≡ place_of format n room }
    ensures fits { IfOk result (λ start. (start ≡ data_start_of format.length n) × (n ≤ longest format.length) × (start + n + ending_size ≤ room)) }
{
    if format.limit.min(longest_payload(format.length)) < n {
        return Err(Refusal::OverLong);
    }
    let start = data_start(format.length, n);
    if room < start + n + names::ENDING_SIZE {
        return Err(Refusal::ShortBuffer);
    }
    Ok(start)
}

// Writes the frame that carries the payload at the buffer's start; the rest of the buffer keeps its bytes.
pub fn build(format: FrameFormat, payload: &[u8], buffer: &mut [u8]) -> Result<usize, Refusal>
    ensures { left (returned result) buffer.new ≡ build_of format payload.now buffer.old }
{
    let n = payload.len();
    let start = room_for(format, n, buffer.len())?;
    octets::copy(payload, &mut buffer[start..]);
    enclose(format.length, n, buffer);
    Ok(start + n + names::ENDING_SIZE)
}
