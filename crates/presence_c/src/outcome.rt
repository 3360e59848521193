// What the host is given for a round, in numbers.
ghost use Rattle.std.specs.Prelude.{◌≡◌};
ghost use Rattle.presence_c.specs.Outcomes.{outcome_of};

use errors::{Numbered, RoundRefusal};
use presence_list::list::Counts;

// The refusal's number, 0 where the round was accepted; and then how many came and left.
#[repr(C)]
#[derive(Clone, Copy, Debug, PartialEq, Eq)]
pub struct Outcome {
    // Kept: a struct of the C interface, in which 0 stands for an accepted round.
    pub refusal: u8,
    pub arrived: usize,
    pub departed: usize,
}

impl From<Result<Counts, RoundRefusal>> for Outcome {
    ghost from_gives = { λ answer outcome. outcome ≡ outcome_of answer };

    fn from(answer: Result<Counts, RoundRefusal>) -> Outcome {
        match answer {
            Ok(Counts { arrived, departed }) => Outcome {
                refusal: 0,
                arrived,
                departed,
            },
            Err(refusal) => Outcome {
                refusal: Numbered::from(refusal).number,
                arrived: 0,
                departed: 0,
            },
        }
    }
}
