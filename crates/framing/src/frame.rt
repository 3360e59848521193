// The RC-S956's frames (frame.rs): its format, the frames of a command and of its response, and a command taken out of its frame.
#![tactic(auto, using(errors::specs::Rules::picks), unfolding(errors::specs::Choice::pick, crate::specs::Commands::behind_direction_of, crate::specs::Build::build_of, crate::specs::Commands::command_in, errors::specs::Refusals::returned))]

ghost use Rattle.std.specs.Prelude.{◌≡◌};
ghost use Rattle.errors.specs.Refusals.{returned};
ghost use Rattle.framing.specs.Build.{left, build_of};
ghost use Rattle.framing.specs.Names.{longest_extended};
ghost use Rattle.framing.specs.declared.ErrorDetection.TheVariants.{ErrorFrame};
ghost use Rattle.framing.specs.declared.LengthEncoding.TheVariants.{NormalOrExtendedBigEndian};
ghost use Rattle.framing.specs.Settings.{rcs956, payload_from, command_payload, response_payload};
ghost use Rattle.framing.specs.Commands.{behind_direction_of, command_in};

use super::{ErrorDetection, Format, FrameType, LengthEncoding, names};
use errors::Refusal;

// Host to controller, and controller to host.
pub const HOST_TO_CONTROLLER: u8 = 0xD4;

pub const CONTROLLER_TO_HOST: u8 = 0xD5;

// Kept: beside `BigEndianErrorFrame`, of the same three constants, since document 01 names both.
#[derive(Clone, Copy, Debug, PartialEq, Eq)]
pub struct Rcs956Format;

impl Format for Rcs956Format {
    ghost LENGTH = { NormalOrExtendedBigEndian };

    const LENGTH: LengthEncoding = LengthEncoding::NormalOrExtendedBigEndian;

    ghost ERROR = { ErrorFrame };

    const ERROR: ErrorDetection = ErrorDetection::ErrorFrame;

    ghost LIMIT = { longest_extended };

    const LIMIT: usize = names::LONGEST_EXTENDED;
}

// Writes the frame of a payload of TFI, a code and bytes.
fn build_directed(
    direction: u8,
    code: u8,
    bytes: &[u8],
    buffer: &mut [u8],
) -> Result<usize, Refusal>
    ensures { left (returned result) buffer.new ≡ build_of rcs956 (payload_from direction code bytes.now) buffer.old }
{
    let n = bytes.len() + 2;
    let start = super::room_for(Rcs956Format::format(), n, buffer.len())?;
    buffer[start] = direction;
    buffer[start + 1] = code;
    octets::copy(bytes, &mut buffer[start + 2..]);
    super::enclose(Rcs956Format::LENGTH, n, buffer);
    Ok(start + n + names::ENDING_SIZE)
}

// Writes the frame of a command: TFI, the code and its data.
pub fn build_command(code: u8, bytes: &[u8], buffer: &mut [u8]) -> Result<usize, Refusal>
    ensures { left (returned result) buffer.new ≡ build_of rcs956 (command_payload code bytes.now) buffer.old }
{
    build_directed(HOST_TO_CONTROLLER, code, bytes, buffer)
}

// Writes the frame of a response to a command of this code: TFI, the code plus 1 and the response's bytes.
pub fn build_response(code: u8, bytes: &[u8], buffer: &mut [u8]) -> Result<usize, Refusal>
    ensures { left (returned result) buffer.new ≡ build_of rcs956 (response_payload code bytes.now) buffer.old }
{
    build_directed(CONTROLLER_TO_HOST, code.wrapping_add(1), bytes, buffer)
}

// What follows TFI in the payload of a command: the code and its data. The empty part where it is none.
fn behind_direction(payload: &[u8]) -> &[u8]
    ensures { result.now ≡ behind_direction_of payload.now }
{
    match payload.split_first() {
        Some((&HOST_TO_CONTROLLER, behind)) => behind,
        _ => &payload[..0],
    }
}

// The code and the data of the command whose frame the bytes are; the empty part where they are none.
pub fn command_in(written: &[u8]) -> &[u8]
    ensures { result.now ≡ command_in written.now }
{
    let found = super::parse(Rcs956Format::format(), written);
    let Some(FrameType::Data { frame, .. }) = found else {
        return &written[..0];
    };
    if frame != written.len() {
        return &written[..0];
    }
    behind_direction(super::payload(written, found))
}
