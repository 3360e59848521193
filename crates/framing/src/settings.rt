// The six settings, in document 01's order: each length form with ErrorFrame, then with StatusByte.
#![tactic(auto, using(errors::specs::Rules::picks), unfolding(errors::specs::Choice::pick, crate::specs::Settings::setting_of))]

ghost use Rattle.std.specs.Prelude.{◌≡◌, ℕ};
ghost use Rattle.framing.specs.Names.{longest_normal, longest_extended};
ghost use Rattle.framing.specs.Settings.{format_with, setting_of};
ghost use Rattle.framing.specs.declared.ErrorDetection.{ErrorDetection};
ghost use Rattle.framing.specs.declared.LengthEncoding.{LengthEncoding};
ghost use Rattle.framing.specs.declared.ErrorDetection.TheVariants.{ErrorFrame, StatusByte};
ghost use Rattle.framing.specs.declared.LengthEncoding.TheVariants.{Normal, ExtendedLittleEndian, NormalOrExtendedBigEndian};

use super::{ErrorDetection, FrameFormat, LengthEncoding, names};

// A setting: how lengths are written, how errors are reported, and the longest payload.
pub trait Format {
    ghost LENGTH: { LengthEncoding };

    const LENGTH: LengthEncoding;

    ghost ERROR: { ErrorDetection };

    const ERROR: ErrorDetection;

    ghost LIMIT: { ℕ };

    const LIMIT: usize;

    fn format() -> FrameFormat
        ensures { result ≡ format_with LENGTH ERROR LIMIT }
    {
        FrameFormat {
            length: Self::LENGTH,
            error: Self::ERROR,
            limit: Self::LIMIT,
        }
    }
}

// The setting of a number, if there is one.
// Kept: a number above 5 is no error of this crate: its callers refuse it with 4 or with 1.
pub fn by_number(number: u8) -> Option<FrameFormat>
    ensures { result ≡ setting_of number }
{
    match number {
        0 => Some(NormalErrorFrame::format()),
        1 => Some(NormalStatusByte::format()),
        2 => Some(LittleEndianErrorFrame::format()),
        3 => Some(LittleEndianStatusByte::format()),
        4 => Some(BigEndianErrorFrame::format()),
        5 => Some(BigEndianStatusByte::format()),
        _ => None,
    }
}

#[derive(Clone, Copy, Debug, PartialEq, Eq)]
pub struct NormalErrorFrame;

impl Format for NormalErrorFrame {
    ghost LENGTH = { Normal };

    const LENGTH: LengthEncoding = LengthEncoding::Normal;

    ghost ERROR = { ErrorFrame };

    const ERROR: ErrorDetection = ErrorDetection::ErrorFrame;

    ghost LIMIT = { longest_normal };

    const LIMIT: usize = names::LONGEST_NORMAL;
}

#[derive(Clone, Copy, Debug, PartialEq, Eq)]
pub struct NormalStatusByte;

impl Format for NormalStatusByte {
    ghost LENGTH = { Normal };

    const LENGTH: LengthEncoding = LengthEncoding::Normal;

    ghost ERROR = { StatusByte };

    const ERROR: ErrorDetection = ErrorDetection::StatusByte;

    ghost LIMIT = { longest_normal };

    const LIMIT: usize = names::LONGEST_NORMAL;
}

#[derive(Clone, Copy, Debug, PartialEq, Eq)]
pub struct LittleEndianErrorFrame;

impl Format for LittleEndianErrorFrame {
    ghost LENGTH = { ExtendedLittleEndian };

    const LENGTH: LengthEncoding = LengthEncoding::ExtendedLittleEndian;

    ghost ERROR = { ErrorFrame };

    const ERROR: ErrorDetection = ErrorDetection::ErrorFrame;

    ghost LIMIT = { longest_extended };

    const LIMIT: usize = names::LONGEST_EXTENDED;
}

#[derive(Clone, Copy, Debug, PartialEq, Eq)]
pub struct LittleEndianStatusByte;

impl Format for LittleEndianStatusByte {
    ghost LENGTH = { ExtendedLittleEndian };

    const LENGTH: LengthEncoding = LengthEncoding::ExtendedLittleEndian;

    ghost ERROR = { StatusByte };

    const ERROR: ErrorDetection = ErrorDetection::StatusByte;

    ghost LIMIT = { longest_extended };

    const LIMIT: usize = names::LONGEST_EXTENDED;
}

#[derive(Clone, Copy, Debug, PartialEq, Eq)]
pub struct BigEndianErrorFrame;

impl Format for BigEndianErrorFrame {
    ghost LENGTH = { NormalOrExtendedBigEndian };

    const LENGTH: LengthEncoding = LengthEncoding::NormalOrExtendedBigEndian;

    ghost ERROR = { ErrorFrame };

    const ERROR: ErrorDetection = ErrorDetection::ErrorFrame;

    ghost LIMIT = { longest_extended };

    const LIMIT: usize = names::LONGEST_EXTENDED;
}

#[derive(Clone, Copy, Debug, PartialEq, Eq)]
pub struct BigEndianStatusByte;

impl Format for BigEndianStatusByte {
    ghost LENGTH = { NormalOrExtendedBigEndian };

    const LENGTH: LengthEncoding = LengthEncoding::NormalOrExtendedBigEndian;

    ghost ERROR = { StatusByte };

    const ERROR: ErrorDetection = ErrorDetection::StatusByte;

    ghost LIMIT = { longest_extended };

    const LIMIT: usize = names::LONGEST_EXTENDED;
}
