// The C interface of frames and CRCs, as include/rcs956_codec.h describes it. An answer is 0, or document 01's number of a refusal.
#![tactic(auto)]

ghost use Rattle.std.specs.Prelude.{◌≡◌, List, ℕ};
ghost use Rattle.crc.specs.Crc.{type_a, type_b, checks};
ghost use Rattle.errors.specs.Refusals.{numbered, returned};
ghost use Rattle.framing.specs.Frames.{checksum_of};
ghost use Rattle.framing.specs.Settings.{setting_of};
ghost use Rattle.codec_c.specs.Answers.{written, written_of, build_for, append_b, found, frame_found, parse_answer, parse_for, parsed_padded, padded_for};

use errors::{Numbered, Refusal};
use framing::{FrameType, settings};

// What a packet was found to be, in numbers. The kind is 0 for no frame, 1 for Ack, 2 for Error, 3 for Data.
#[derive(Clone, Copy, Debug, PartialEq, Eq)]
struct Found {
    kind: u8,
    start: usize,
    len: usize,
    frame: usize,
}

const NO_FRAME: Found = Found {
    kind: 0,
    start: 0,
    len: 0,
    frame: 0,
};

impl From<Option<FrameType>> for Found {
    ghost from_gives = { λ parsed f. f ≡ frame_found parsed };

    fn from(parsed: Option<FrameType>) -> Found {
        match parsed {
            Some(FrameType::Ack(frame)) => Found {
                kind: 1,
                frame,
                ..NO_FRAME
            },
            Some(FrameType::Error(frame)) => Found {
                kind: 2,
                frame,
                ..NO_FRAME
            },
            Some(FrameType::Data { start, len, frame }) => Found {
                kind: 3,
                start,
                len,
                frame,
            },
            None => NO_FRAME,
        }
    }
}

impl Found {
    // Kept: four places and no struct, as the C interface has them.
    // Writes the numbers to the caller's places.
    fn put(self, kind: &mut u8, start: &mut usize, len: &mut usize, frame: &mut usize)
        ensures { found kind.new start.new len.new frame.new ≡ self }
    {
        *kind = self.kind;
        *start = self.start;
        *len = self.len;
        *frame = self.frame;
    }
}

// Kept: the C interface answers a number, 0 or the refusal's (include/rcs956_codec.h).
// The refusal's number in document 01's table.
fn refusal_number(refusal: Refusal) -> u8
    ensures { result ≡ (numbered refusal).number }
{
    Numbered::from(refusal).number
}

// What a function answers that writes so many bytes or refuses; the number of bytes goes to `count`.
#[tactic(auto, unfolding(crate::specs::Answers::written_of, errors::specs::Refusals::returned))]
fn counted(done: Result<usize, Refusal>, count: &mut usize) -> u8
    ensures { (buffer : List ℕ) → written result buffer count.new ≡ written_of (returned done) buffer count.old }
{
    match done {
        Ok(n) => {
            *count = n;
            0
        }
        Err(refusal) => refusal_number(refusal),
    }
}

// The byte that brings the sum of the bytes to a multiple of 256.
#[unsafe(no_mangle)]
pub extern "C" fn rcs956_checksum(bytes: &[u8]) -> u8
    ensures { result ≡ checksum_of bytes.now }
{
    framing::checksum(bytes)
}

// Writes the payload's frame to the buffer's start, and its length to `count`. A refusal writes nothing.
#[tactic(auto, unfolding(crate::specs::Answers::build_for, crate::specs::Answers::written_of))]
#[unsafe(no_mangle)]
pub extern "C" fn rcs956_frame_build(
    setting: u8,
    payload: &[u8],
    buffer: &mut [u8],
    count: &mut usize,
) -> u8
    ensures { written result buffer.new count.new ≡ build_for (setting_of setting) payload.now buffer.old count.old }
{
    let Some(format) = settings::by_number(setting) else {
        return refusal_number(Refusal::BadArgument);
    };
    counted(framing::build(format, payload, buffer), count)
}

// Says what the packet starts with: its kind, the payload's start and length, the frame's length. A refusal writes nothing.
// Kept: the parameters of the C interface.
#[tactic(auto, unfolding(crate::specs::Answers::parse_for))]
#[unsafe(no_mangle)]
pub extern "C" fn rcs956_frame_parse(
    setting: u8,
    packet: &[u8],
    kind: &mut u8,
    start: &mut usize,
    len: &mut usize,
    frame: &mut usize,
) -> u8
    ensures { parse_answer result (found kind.new start.new len.new frame.new) ≡ parse_for (setting_of setting) packet.now (found kind.old start.old len.old frame.old) }
{
    let Some(format) = settings::by_number(setting) else {
        return refusal_number(Refusal::BadArgument);
    };
    Found::from(framing::parse(format, packet)).put(kind, start, len, frame);
    0
}

// The same behind up to 16 extra zeros, with their number. The places are those of the packet as it came; the frame's length counts no
// extra zeros.
// Kept: the parameters of the C interface.
#[tactic(auto, unfolding(crate::specs::Answers::padded_for))]
#[unsafe(no_mangle)]
pub extern "C" fn rcs956_frame_parse_padded(
    setting: u8,
    packet: &[u8],
    kind: &mut u8,
    start: &mut usize,
    len: &mut usize,
    frame: &mut usize,
    zeros: &mut usize,
) -> u8
    ensures { parsed_padded result (found kind.new start.new len.new frame.new) zeros.new ≡ padded_for (setting_of setting) packet.now (found kind.old start.old len.old frame.old) zeros.old }
{
    let Some(format) = settings::by_number(setting) else {
        return refusal_number(Refusal::BadArgument);
    };
    let padded = framing::padded::parse_padded(format, true, packet);
    Found::from(padded.found).put(kind, start, len, frame);
    *zeros = padded.zeros;
    0
}

// Whether the last two bytes are the CRC_A of those before them.
#[unsafe(no_mangle)]
pub extern "C" fn rcs956_crc_a_check(bytes: &[u8]) -> bool
    ensures { result ≡ checks type_a bytes.now }
{
    crc::check_crc_a(bytes)
}

// The same of CRC_B.
#[unsafe(no_mangle)]
pub extern "C" fn rcs956_crc_b_check(bytes: &[u8]) -> bool
    ensures { result ≡ checks type_b bytes.now }
{
    crc::check_crc_b(bytes)
}

// Writes the bytes and their CRC_B to the start of `out`, and their number to `count`. A refusal writes nothing.
#[tactic(auto, unfolding(crate::specs::Answers::append_b))]
#[unsafe(no_mangle)]
pub extern "C" fn rcs956_crc_b_append(bytes: &[u8], out: &mut [u8], count: &mut usize) -> u8
    ensures { written result out.new count.new ≡ append_b bytes.now out.old count.old }
{
    counted(crc::add_crc_b(bytes, out), count)
}
