// The reader's books: what a session keeps beside its running call. They lie in two arrays, which are lent: three numbers, and the command
// frames ordered since the last opening began, by caller.
#![tactic(auto, using(framing::specs::Rules::steps), unfolding(errors::specs::Choice::pick, crate::specs::Books::extra_in, crate::specs::Books::one_more_of, crate::specs::Books::ended))]

ghost use Rattle.std.specs.Prelude.{◌≡◌, ◌≤◌};
ghost use Rattle.protocol.specs.Session.{last_caller};
ghost use Rattle.engine.specs.Books.{books_of, books_in_range, no_books, extra_in, one_more_of, counted_in, booked};

use super::running::{Output, PACKET_LIMIT};
use framing::padded;

// Kept: the three are bytes of one array and no struct of a flag, a mode and a caller: they lie in the C session, where any byte may stand.
// The places of the three numbers: whether the reader is open, the mode that the last opening chose, whose call runs or ran last.
pub const OPENED: usize = 0;

pub const MODE: usize = 1;

pub const CALLER: usize = 2;

pub const BOOKS_SIZE: usize = 3;

// Kept: numbers and no enum, since they stand in session memory, which is repr(C) and may hold any byte.
pub const CLOSED: u8 = 0;

pub const OPEN: u8 = 1;

// The modes: packets start with 00 00 FF, or up to 16 more zeros may stand before them.
// Kept: numbers and no enum, since they stand in session memory, which is repr(C) and may hold any byte.
pub const OFF_MODE: u8 = 0;

pub const PADDED_MODE: u8 = 1;

// Callers are numbered from 0 to 7.
pub const CALLER_COUNT: usize = 8;

pub const LAST_CALLER: u8 = 7;

// The frame count stops here.
pub const CEILING: u32 = 4294967295;

// Every number is in its range.
pub fn is_in_range(opened: u8, mode: u8, caller: u8) -> bool
    ensures { result ≡ books_in_range opened mode caller }
{
    opened <= OPEN && mode <= PADDED_MODE && caller <= LAST_CALLER
}

// How many bytes the mode takes off a packet's start: its extra zeros, unless it is over-long.
pub fn extra_zeros(mode: u8, packet: &[u8]) -> usize
    ensures { result ≡ extra_in mode packet.now }
{
    if mode == PADDED_MODE && packet.len() <= PACKET_LIMIT {
        padded::extra_zeros(packet)
    } else {
        0
    }
}

// Where an opening begins, in its mode. The books of a fresh session have it off.
pub(crate) fn begin(frames: &mut [u32; CALLER_COUNT], books: &mut [u8; BOOKS_SIZE], mode: u8)
    ensures { books_of books.new frames.new ≡ no_books mode }
{
    *books = [CLOSED, mode, 0];
    *frames = [0; CALLER_COUNT];
}

// One command frame more, up to the ceiling.
// Kept: `saturating_add` would stop at the same number, but only since the ceiling is the type's last one; the count stops at the ceiling that document 01 names.
fn one_more(frames: u32) -> u32
    ensures { result ≡ one_more_of frames }
{
    if frames < CEILING { frames + 1 } else { frames }
}

// A command frame counts for a caller.
fn count_frame(frames: &mut [u32; CALLER_COUNT], caller: u8)
    requires { caller ≤ last_caller }
    ensures { frames.new ≡ counted_in caller frames.old }
{
    let at = usize::from(caller);
    frames[at] = one_more(frames[at]);
}

// What came out of a caller's call, an opening or not: a command frame counts, and an opening's end says whether the reader is open.
pub(crate) fn book(
    frames: &mut [u32; CALLER_COUNT],
    books: &mut [u8; BOOKS_SIZE],
    caller: u8,
    opening: bool,
    output: Output,
)
    requires { caller ≤ last_caller }
    ensures { books_of books.new frames.new ≡ booked caller opening output (books_of books.old frames.old) }
{
    if matches!(output, Output::Refused(_)) {
        return;
    }
    books[CALLER] = caller;
    match output {
        Output::Command(_) => count_frame(frames, caller),
        Output::Done(_) | Output::Type1(_) | Output::UidAndAts(_, _, _) if opening => {
            books[OPENED] = OPEN
        }
        Output::Nothing | Output::Failed(_) | Output::FailedAfter(_, _) if opening => {
            books[OPENED] = CLOSED
        }
        _ => {}
    }
}
