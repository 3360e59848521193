// The bitrates that each discovery takes, and their codes for the chip.
ghost use Rattle.std.specs.Prelude.{Option, ◌≡◌, ℕ};
ghost use Rattle.std.proofs.Math.Option.{Option as Maybe};
ghost use Rattle.targets.specs.declared.Bitrate.{Bitrate};
ghost use Rattle.protocol.specs.Starts.{type_a_code, type_b_code, type_f_code, dep_code};
ghost use Rattle.discovery.specs.Firsts.{supported_in, Rated};

use errors::Refusal;
use targets::Bitrate;

// The chip's codes, of which the last is for a list of Type 1 tags.
const CODE_106A: u8 = 0;

const CODE_212F: u8 = 1;

const CODE_424F: u8 = 2;

const CODE_106B: u8 = 3;

pub(crate) const CODE_TYPE_1: u8 = 4;

// The code by which a call names a text's bitrate, where `takes` has one.
pub(crate) fn chip_code<F: FnOnce(Bitrate) -> Option<u8>>(
    text: &[u8],
    takes: F,
) -> Result<u8, Refusal>
    requires { F.IsAlwaysCallable takes }
    ensures { (t : Bitrate → Maybe ℕ) → ((b : Bitrate) (r : Option ℕ) → F.post takes b r → supported_in r ≡ t b) → Rated result t text.now }
{
    let bitrate = targets::code(text)?;
    takes(bitrate).ok_or(Refusal::Bitrate)
}

// The code of a bitrate, where the call takes it. Type A's takes each that has one; the others take some of these.
pub(crate) fn type_a_code(bitrate: Bitrate) -> Option<u8>
    ensures { supported_in result ≡ type_a_code bitrate }
{
    match bitrate {
        Bitrate::B106A => Some(CODE_106A),
        Bitrate::B212F => Some(CODE_212F),
        Bitrate::B424F => Some(CODE_424F),
        Bitrate::B106B => Some(CODE_106B),
        _ => None,
    }
}

// The chip lists no other Type B rate.
pub(crate) fn type_b_code(bitrate: Bitrate) -> Option<u8>
    ensures { supported_in result ≡ type_b_code bitrate }
{
    match bitrate {
        Bitrate::B106B => type_a_code(bitrate),
        _ => None,
    }
}

pub(crate) fn type_f_code(bitrate: Bitrate) -> Option<u8>
    ensures { supported_in result ≡ type_f_code bitrate }
{
    match bitrate {
        Bitrate::B212F | Bitrate::B424F => type_a_code(bitrate),
        _ => None,
    }
}

pub(crate) fn dep_code(bitrate: Bitrate) -> Option<u8>
    ensures { supported_in result ≡ dep_code bitrate }
{
    match bitrate {
        Bitrate::B106B => None,
        _ => type_a_code(bitrate),
    }
}
