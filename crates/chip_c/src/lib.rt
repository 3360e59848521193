// The C interface of the chip with its field of cards, as include/rcs956_chip.h describes it: the chip is updated in place.
#![tactic(auto, unfolding(crate::specs::Outcomes::card_report, crate::specs::Outcomes::reply_report, crate::specs::Outcomes::step_report))]

pub mod by_number;
pub mod outcome;

ghost use Rattle.std.specs.Prelude.{◌≡◌};
ghost use Rattle.simulated_chip.specs.Steps.{fresh_chip_memory};
ghost use Rattle.chip_c.specs.Outcomes.{report, report_step, card_report, reply_report, step_report};

use by_number::{bitrate_by, kind_by};
use outcome::Outcome;
use simulated_chip::chip::Chip;

// An empty field, and the chip as at its start.
#[unsafe(no_mangle)]
pub extern "C" fn rcs956_chip_fresh() -> Chip
    ensures { result ≡ fresh_chip_memory }
{
    Chip::fresh()
}

// A card more in the field, its kind and bitrate by their numbers.
#[unsafe(no_mangle)]
pub extern "C" fn rcs956_chip_add_card(
    chip: &mut Chip,
    kind: u8,
    bitrate: u8,
    listed: &[u8],
    atqb: &[u8],
) -> Outcome
    ensures { report chip.new result ≡ card_report chip.old kind bitrate listed.now atqb.now }
{
    Outcome::from(chip.add_card(kind_by(kind), bitrate_by(kind, bitrate), listed, atqb))
}

// A reply more of the card added last.
#[unsafe(no_mangle)]
pub extern "C" fn rcs956_chip_add_reply(chip: &mut Chip, bytes: &[u8], reply: &[u8]) -> Outcome
    ensures { report chip.new result ≡ reply_report chip.old bytes.now reply.now }
{
    Outcome::from(chip.add_reply(bytes, reply))
}

// The bytes that the host wrote: nothing, or ACK and the packet at the buffer's start.
#[unsafe(no_mangle)]
pub extern "C" fn rcs956_chip_step(chip: &mut Chip, written: &[u8], buffer: &mut [u8]) -> Outcome
    ensures { report_step chip.new result buffer.new ≡ step_report chip.old written.now buffer.old }
{
    Outcome::from(chip.step(written, buffer))
}
