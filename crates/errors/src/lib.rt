// The refusals of document 01, and of document 02 from 20 on, by their words there: those that refuse at once, and those that end a running call.
#![tactic(auto)]

ghost use Rattle.std.specs.Prelude.{◌≡◌};
ghost use Rattle.errors.specs.declared.RoundRefusal.TheVariants.{AtOnce};
ghost use Rattle.errors.specs.Refusals.{plain as plain_of, numbered as numbered_of, fault_numbered, round_numbered};

// 1 to 6: refused at once, and nothing changes.
#[derive(Clone, Copy, Debug, PartialEq, Eq)]
pub enum Refusal {
    OutOfTurn,
    ShortBuffer,
    OverLong,
    BadArgument,
    Bitrate,
    NotSendable,
}

// 7 and up: a running call ends.
#[derive(Clone, Copy, Debug, PartialEq, Eq)]
pub enum Fault {
    Transport,
    TimeOut,
    FalseStart,
    BrokenFrame,
    Length,
    FrameKind,
    Identifier,
    Code,
    Status(u8),
    ShortResponse,
    NoCard,
    CrcA,
    Rate,
    CardStatus(u8, u8),
    OtherCard,
    UidLayout,
}

// Document 02, N9: a round of discovery is refused, and the list stays as it is.
#[derive(Clone, Copy, Debug, PartialEq, Eq)]
pub enum RoundRefusal {
    AtOnce(Refusal),
    StaleRound,
    ListFull,
}

// The two refusals that carry values.
pub const STATUS_NUMBER: u8 = 15;

pub const CARD_STATUS_NUMBER: u8 = 20;

// A refusal's number in document 01's table, and what it carries: 15 a status byte, 20 the two status flags (0 where there is none).
#[derive(Clone, Copy, Debug, PartialEq, Eq)]
pub struct Numbered {
    pub number: u8,
    pub status: u8,
    pub status2: u8,
}

// A refusal that carries no value.
fn plain(number: u8) -> Numbered
    ensures { result ≡ plain_of number }
{
    Numbered {
        number,
        status: 0,
        status2: 0,
    }
}

impl From<Refusal> for Numbered {
    ghost from_gives = { λ refusal n. n ≡ numbered_of refusal };

    fn from(refusal: Refusal) -> Numbered {
        match refusal {
            Refusal::OutOfTurn => plain(1),
            Refusal::ShortBuffer => plain(2),
            Refusal::OverLong => plain(3),
            Refusal::BadArgument => plain(4),
            Refusal::Bitrate => plain(5),
            Refusal::NotSendable => plain(6),
        }
    }
}

impl From<Fault> for Numbered {
    ghost from_gives = { λ fault n. n ≡ fault_numbered fault };

    fn from(fault: Fault) -> Numbered {
        match fault {
            Fault::Transport => plain(7),
            Fault::TimeOut => plain(8),
            Fault::FalseStart => plain(9),
            Fault::BrokenFrame => plain(10),
            Fault::Length => plain(11),
            Fault::FrameKind => plain(12),
            Fault::Identifier => plain(13),
            Fault::Code => plain(14),
            Fault::Status(status) => Numbered {
                number: STATUS_NUMBER,
                status,
                status2: 0,
            },
            Fault::ShortResponse => plain(16),
            Fault::NoCard => plain(17),
            Fault::CrcA => plain(18),
            Fault::Rate => plain(19),
            Fault::CardStatus(status, status2) => Numbered {
                number: CARD_STATUS_NUMBER,
                status,
                status2,
            },
            Fault::OtherCard => plain(21),
            Fault::UidLayout => plain(22),
        }
    }
}

impl From<RoundRefusal> for Numbered {
    ghost from_gives = { λ refusal n. n ≡ round_numbered refusal };

    fn from(refusal: RoundRefusal) -> Numbered {
        match refusal {
            RoundRefusal::AtOnce(at_once) => Numbered::from(at_once),
            RoundRefusal::StaleRound => plain(27),
            RoundRefusal::ListFull => plain(28),
        }
    }
}

impl From<Refusal> for RoundRefusal {
    ghost from_gives = { λ refusal r. r ≡ AtOnce refusal };

    fn from(refusal: Refusal) -> RoundRefusal {
        RoundRefusal::AtOnce(refusal)
    }
}
