// What the host is given, in numbers.
#![tactic(auto)]

ghost use Rattle.std.specs.Prelude.{◌≡◌};
ghost use Rattle.chip_c.specs.Outcomes.{outcome_of, addition_outcome};

use errors::{Numbered, Refusal};

// The refusal's number, 0 where there is none; and how long the packet behind ACK is, 0 where the chip sends nothing.
#[repr(C)]
#[derive(Clone, Copy, Debug, PartialEq, Eq)]
pub struct Outcome {
    pub refusal: u8,
    pub packet: usize,
}

impl From<Result<Option<usize>, Refusal>> for Outcome {
    ghost from_gives = { λ answer o. o ≡ outcome_of answer };

    fn from(answer: Result<Option<usize>, Refusal>) -> Outcome {
        match answer {
            Ok(packet) => Outcome {
                refusal: 0,
                packet: packet.unwrap_or(0),
            },
            Err(refusal) => Outcome {
                refusal: Numbered::from(refusal).number,
                packet: 0,
            },
        }
    }
}

impl From<Result<(), Refusal>> for Outcome {
    ghost from_gives = { λ addition o. o ≡ addition_outcome addition };

    fn from(addition: Result<(), Refusal>) -> Outcome {
        Outcome::from(addition.map(|()| None))
    }
}
