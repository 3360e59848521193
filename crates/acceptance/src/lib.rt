// All frames of payloads of at most 2 bytes, under the six settings in turn, for acceptance tests (document 02, N12): a stepper from
// one to the next.
#![tactic(auto, using(errors::specs::Rules::picks), unfolding(errors::specs::Choice::pick, crate::specs::Order::following_at, crate::specs::Order::payload_bytes, crate::specs::Order::payload_number, crate::specs::Order::step_from, crate::specs::Steps::entry_built, errors::specs::Refusals::returned, framing::specs::Build::build_of))]

pub mod lines;

ghost use Rattle.std.specs.Prelude.{◌≡◌, suc, ◌<◌};
ghost use Rattle.errors.specs.Refusals.{returned};
ghost use Rattle.framing.specs.Build.{left, build_of};
ghost use Rattle.acceptance.specs.Order.{payload_bytes, payloads, payload_number, first_entry, following_at, step_from};
ghost use Rattle.acceptance.specs.Steps.{entry_built};

use errors::Refusal;
use framing::{FrameFormat, settings};

// A payload of at most 2 bytes.
#[derive(Clone, Copy, Debug, PartialEq, Eq)]
pub enum Payload {
    Empty,
    One(u8),
    Two(u8, u8),
}

// An entry of the list: a setting by its number, 0 to 5, and a payload.
#[derive(Clone, Copy, Debug, PartialEq, Eq)]
pub struct Entry {
    pub setting: u8,
    pub payload: Payload,
}

const SETTINGS: u8 = 6;

// The payload behind another one, if there is one.
fn payload_behind(payload: Payload) -> Option<Payload>
    ensures { (result ≡ following_at (suc (payload_number payload))) × (payload_number payload < payloads) }
{
    match payload {
        Payload::Empty => Some(Payload::One(0)),
        Payload::One(byte) => {
            if byte < 255 {
                return Some(Payload::One(byte + 1));
            }
            Some(Payload::Two(0, 0))
        }
        Payload::Two(first, second) => {
            if second < 255 {
                return Some(Payload::Two(first, second + 1));
            }
            if first < 255 {
                return Some(Payload::Two(first + 1, 0));
            }
            None
        }
    }
}

// Writes the payload's frame at the buffer's start.
fn build(format: FrameFormat, payload: Payload, buffer: &mut [u8]) -> Result<usize, Refusal>
    ensures { left (returned result) buffer.new ≡ build_of format (payload_bytes payload) buffer.old }
{
    match payload {
        Payload::Empty => framing::build(format, &[], buffer),
        Payload::One(byte) => framing::build(format, &[byte], buffer),
        Payload::Two(first, second) => framing::build(format, &[first, second], buffer),
    }
}

impl Entry {
    // The list's first entry.
    pub fn first() -> Entry
        ensures { result ≡ first_entry 0 }
    {
        Entry {
            setting: 0,
            payload: Payload::Empty,
        }
    }

    // The entry behind this one, if there is one. Behind a setting's last one stands the next setting's first.
    pub fn next(self) -> Result<Option<Entry>, Refusal>
        ensures { result ≡ step_from self }
    {
        if SETTINGS <= self.setting {
            return Err(Refusal::OutOfTurn);
        }
        match payload_behind(self.payload) {
            Some(payload) => Ok(Some(Entry { payload, ..self })),
            None if SETTINGS - 1 <= self.setting => Ok(None),
            None => Ok(Some(Entry {
                setting: self.setting + 1,
                payload: Payload::Empty,
            })),
        }
    }

    // Writes the entry's frame at the buffer's start; the rest of the buffer keeps its bytes.
    pub fn frame(self, buffer: &mut [u8]) -> Result<usize, Refusal>
        ensures { left (returned result) buffer.new ≡ entry_built self buffer.old }
    {
        let format = settings::by_number(self.setting).ok_or(Refusal::OutOfTurn)?;
        build(format, self.payload, buffer)
    }
}
