// A call as stages: how it starts, the command of each stage, and what is decided on a reply. Every call is made of these.
#![tactic(auto)]

pub mod few;
pub mod put;
pub mod start;

ghost use Rattle.std.specs.Prelude.{List, ◌∷◌, ◌++◌, ◌≡◌, ℕ, ◌+◌, ◌≤◌, length, take, drop, get_or};
ghost use Rattle.stages.specs.Decided.{Lays, Commands, found_limit, response_limit, fixed_limit, head_limit, tail_limit};
ghost use Rattle.stages.specs.Stages.{cmd};

use errors::Fault;
use few::Few;

// The most bytes of data that a stage has by itself.
pub const FIXED_LIMIT: usize = 12;

// The data of a stage's command: the pending command, or bytes of its own.
#[derive(Clone, Copy, Debug, PartialEq, Eq)]
pub enum Data {
    Pending,
    Own(Few<FIXED_LIMIT>),
}

// The command of a stage: its code, its clock in ms, and its data.
#[derive(Clone, Copy, Debug, PartialEq, Eq)]
pub struct Command {
    pub code: u8,
    pub clock: u32,
    pub bytes: Data,
}

impl Command {
    // With data of its own.
    pub fn fixed(code: u8, clock: u32, bytes: &[u8]) -> Command
        ensures { length bytes.now ≤ fixed_limit → Commands result (λ pending. cmd code clock bytes.now) }
    {
        Command {
            code,
            clock,
            bytes: Data::Own(Few::new(bytes)),
        }
    }

    // With the pending command as its data.
    pub fn pending(code: u8, clock: u32) -> Command
        ensures { Commands result (λ pending. cmd code clock pending) }
    {
        Command {
            code,
            clock,
            bytes: Data::Pending,
        }
    }
}

// The most bytes of a layout's head, and of its tail.
pub const HEAD_LIMIT: usize = 3;

pub const TAIL_LIMIT: usize = 12;

// Bytes put together: the first `kept` found bytes, `head`, `len` bytes of the response from `start` on, and `tail`. The contracts fix
// the bytes. How they divide is free.
#[derive(Clone, Copy, Debug, PartialEq, Eq)]
pub struct Layout {
    pub kept: usize,
    pub head: Few<HEAD_LIMIT>,
    pub start: usize,
    pub len: usize,
    pub tail: Few<TAIL_LIMIT>,
}

// What follows a reply or a failure: the command of a stage; the same, with bytes that become the found bytes; the same with another
// cursor, the second number; the command of a stage with three bytes that become the pending command; a pause in µs, and then the
// command of a stage; or the end of the call. `Part` is the answer of a part of the response, by its start and its length. With Type A's
// bytes the lengths of the UID and the ATS among them may be given, and a list's refusal says how many of its codes were finished.
// Kept: twelve ways to go on, of which only some are an answer or a fault: a Result would be opened only to go on with the others.
#[derive(Clone, Copy, Debug, PartialEq, Eq)]
pub enum Decision {
    Send(u8),
    Keep(u8, Layout),
    Next(u8, u8, Layout),
    Put(u8, [u8; HEAD_LIMIT]),
    Pause(u32, u8),
    Done(Layout),
    Part(usize, usize),
    Type1(Layout),
    UidAndAts(Layout, u8, u8),
    Nothing,
    Refused(Fault),
    RefusedAfter(Fault, u8),
}

// The byte at a place, `other` where there is none.
pub fn byte_or(bytes: &[u8], at: usize, other: u8) -> u8
    ensures { result ≡ get_or bytes.now at other }
{
    bytes.get(at).copied().unwrap_or(other)
}

impl Layout {
    // No bytes.
    const EMPTY: Layout = Layout {
        kept: 0,
        head: Few {
            bytes: [0; HEAD_LIMIT],
            len: 0,
        },
        start: 0,
        len: 0,
        tail: Few {
            bytes: [0; TAIL_LIMIT],
            len: 0,
        },
    };

    // A part of the response.
    pub fn part(start: usize, len: usize) -> Layout
        ensures { (f b : List ℕ) → start + len ≤ length b → Lays f b result (take len (drop start b)) }
    {
        Layout {
            start,
            len,
            ..Layout::EMPTY
        }
    }

    // Some bytes, and the response from a place on.
    pub fn headed(head: &[u8], response: &[u8], start: usize) -> Layout
        ensures { (f : List ℕ) → length head.now ≤ head_limit → length head.now ≤ start + 2 → start ≤ length response.now → Lays f response.now result (head.now ++ drop start response.now) }
    {
        Layout {
            head: Few::new(head),
            start,
            len: response.len().saturating_sub(start),
            ..Layout::EMPTY
        }
    }

    // A part of the response, and some bytes behind it.
    pub fn tailed(start: usize, len: usize, tail: &[u8]) -> Layout
        ensures { (f b : List ℕ) → start + len ≤ length b → length tail.now ≤ tail_limit → (length b ≤ response_limit → len + length tail.now ≤ found_limit) → Lays f b result (take len (drop start b) ++ tail.now) }
    {
        Layout {
            start,
            len,
            tail: Few::new(tail),
            ..Layout::EMPTY
        }
    }

    // Found bytes, and a part of the response behind them.
    pub fn behind(kept: usize, start: usize, len: usize) -> Layout
        ensures { (f b : List ℕ) → kept ≤ length f → start + len ≤ length b → (length f ≤ found_limit → length b ≤ response_limit → kept + len ≤ found_limit) → Lays f b result (take kept f ++ take len (drop start b)) }
    {
        Layout {
            kept,
            start,
            len,
            ..Layout::EMPTY
        }
    }

    // Found bytes, a mark, and a part of the response behind them.
    pub fn marked(kept: usize, mark: u8, start: usize, len: usize) -> Layout
        ensures { (f b : List ℕ) → kept ≤ length f → start + len ≤ length b → kept + (len + 1) ≤ found_limit → Lays f b result (take kept f ++ (mark ∷ take len (drop start b))) }
    {
        Layout {
            kept,
            head: Few::new(&[mark]),
            start,
            len,
            ..Layout::EMPTY
        }
    }

    // The found bytes.
    pub fn found(found: &[u8]) -> Layout
        ensures { (b : List ℕ) → Lays found.now b result found.now }
    {
        Layout::behind(found.len(), 0, 0)
    }
}
