// What the host is given, in numbers.
ghost use Rattle.std.specs.Prelude.{◌≡◌};
ghost use Rattle.session_host.specs.Outcomes.{bytes_outcome, time_outcome, lengths_outcome, refusal_outcome, outcome_of};

use engine::running::Output;
use errors::Numbered;
use framing::ACK_SIZE;

// Kept: kinds are numbers, since the C interface names them (include/rcs956.h).
pub const WRITE_OUTCOME: u8 = 0;

pub const READ_OUTCOME: u8 = 1;

pub const DRAIN_OUTCOME: u8 = 2;

pub const PAUSE_OUTCOME: u8 = 3;

pub const DONE_OUTCOME: u8 = 4;

pub const TYPE1_OUTCOME: u8 = 5;

pub const NONE_OUTCOME: u8 = 6;

pub const REFUSED_OUTCOME: u8 = 7;

pub const LIST_REFUSED_OUTCOME: u8 = 8;

pub const UID_AND_ATS_OUTCOME: u8 = 9;

pub const REFUSED_AT_ONCE_OUTCOME: u8 = 10;

// The kind of an order or an answer. With a refusal its number, the status byte of 15 or the two status flags of 20, and with that
// of a list how many of its codes were finished; with a read its ms, with a pause its µs; with a write order and an answer the number
// of bytes at the buffer's start, and with an answer whose UID and ATS are told apart the length of each. What does not apply is 0.
#[repr(C)]
#[derive(Clone, Copy, Debug, Default, PartialEq, Eq)]
pub struct Outcome {
    pub kind: u8,
    pub refusal: u8,
    pub status: u8,
    pub status2: u8,
    pub finished: u8,
    pub uid: u8,
    pub ats: u8,
    pub time: u32,
    pub len: usize,
}

impl Outcome {
    fn bytes(kind: u8, len: usize) -> Outcome
        ensures { result ≡ bytes_outcome kind len }
    {
        Outcome {
            kind,
            len,
            ..Outcome::default()
        }
    }

    fn uid_and_ats(len: usize, uid: u8, ats: u8) -> Outcome
        ensures { result ≡ lengths_outcome len uid ats }
    {
        Outcome {
            uid,
            ats,
            ..Outcome::bytes(UID_AND_ATS_OUTCOME, len)
        }
    }

    fn timed(kind: u8, time: u32) -> Outcome
        ensures { result ≡ time_outcome kind time }
    {
        Outcome {
            kind,
            time,
            ..Outcome::default()
        }
    }

    fn refused(kind: u8, numbered: Numbered, finished: u8) -> Outcome
        ensures { result ≡ refusal_outcome kind numbered finished }
    {
        Outcome {
            kind,
            refusal: numbered.number,
            status: numbered.status,
            status2: numbered.status2,
            finished,
            ..Outcome::default()
        }
    }
}

impl From<Output> for Outcome {
    ghost from_gives = { λ output r. r ≡ outcome_of output };

    // Kept: one match tells kind, fault and count apart, and the fault is numbered once, behind it; two arms that number it are no plainer, and cost a call 100 instructions.
    fn from(output: Output) -> Outcome {
        let (kind, fault, finished) = match output {
            Output::Ack => return Outcome::bytes(WRITE_OUTCOME, ACK_SIZE),
            Output::Command(len) => return Outcome::bytes(WRITE_OUTCOME, len),
            Output::Read(ms) => return Outcome::timed(READ_OUTCOME, ms),
            Output::Drain => return Outcome::bytes(DRAIN_OUTCOME, 0),
            Output::Pause(us) => return Outcome::timed(PAUSE_OUTCOME, us),
            Output::Done(len) => return Outcome::bytes(DONE_OUTCOME, len),
            Output::Type1(len) => return Outcome::bytes(TYPE1_OUTCOME, len),
            Output::UidAndAts(len, uid, ats) => return Outcome::uid_and_ats(len, uid, ats),
            Output::Nothing => return Outcome::bytes(NONE_OUTCOME, 0),
            Output::Refused(refusal) => {
                return Outcome::refused(REFUSED_AT_ONCE_OUTCOME, Numbered::from(refusal), 0);
            }
            Output::Failed(fault) => (REFUSED_OUTCOME, fault, 0),
            Output::FailedAfter(fault, finished) => (LIST_REFUSED_OUTCOME, fault, finished),
        };
        Outcome::refused(kind, Numbered::from(fault), finished)
    }
}
