// A kind and a bitrate by their numbers.
// Kept: C hands over numbers, and a From would put C's numbers into the crate of the type.
ghost use Rattle.std.specs.Prelude.{◌≡◌};
ghost use Rattle.simulated_chip.specs.Memory.{kind_at};
ghost use Rattle.chip_c.specs.Numbers.{rate_by_of, bitrate_by_of};

use simulated_chip::{Kind, names};
use targets::Bitrate;

#[tactic(auto, unfolding(errors::specs::Choice::pick, simulated_chip::specs::Memory::kind_at))]
pub fn kind_by(number: u8) -> Kind
    ensures { result ≡ kind_at number }
{
    match number {
        names::TYPE_A_NUMBER => Kind::TypeA,
        names::TYPE_B_NUMBER => Kind::TypeB,
        names::TYPE_F_NUMBER => Kind::TypeF,
        _ => Kind::Dep,
    }
}

// A bitrate has its code's number; no other number is one that a kind takes.
#[tactic(auto, unfolding(errors::specs::Choice::pick, crate::specs::Numbers::rate_by_of))]
// Kept: C hands over numbers, and a From would put C's numbers into `targets`.
fn rate_by(number: u8) -> Bitrate
    ensures { result ≡ rate_by_of number }
{
    match number {
        names::CODE_106A => Bitrate::B106A,
        names::CODE_212F => Bitrate::B212F,
        names::CODE_424F => Bitrate::B424F,
        names::CODE_106B => Bitrate::B106B,
        _ => Bitrate::Other,
    }
}

// A kind that there is not has no bitrate, so that a card of it is refused as one with a bitrate that is not of its kind.
#[tactic(auto, using(errors::specs::Rules::picks), unfolding(errors::specs::Choice::pick, crate::specs::Numbers::bitrate_by_of))]
pub fn bitrate_by(kind: u8, number: u8) -> Bitrate
    ensures { result ≡ bitrate_by_of kind number }
{
    if kind <= names::DEP_NUMBER {
        return rate_by(number);
    }
    Bitrate::Other
}
