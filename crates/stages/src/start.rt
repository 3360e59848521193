// How a call starts: its arguments are refused, or bytes are put by and a command is sent.
ghost use Rattle.std.specs.Prelude.{List, ℕ};
ghost use Rattle.stages.specs.Put.{Joins, joined};
ghost use Rattle.stages.specs.Stages.{cmd};
ghost use Rattle.stages.specs.Starts.{Starts, limited, staged_limited};

use super::put::{DATA_LIMIT, put_all};
use errors::Refusal;

// A command whose data were put by: the call's kind, its code, its clock in ms, and how many bytes its data has.
#[derive(Clone, Copy, Debug, PartialEq, Eq)]
pub struct First {
    pub kind: u8,
    pub code: u8,
    pub clock: u32,
    pub len: usize,
}

// The first command is this one; or that of stage 0 of a kind, with so many bytes put by.
#[derive(Clone, Copy, Debug, PartialEq, Eq)]
pub enum Start {
    Command(First),
    Staged(u8, usize),
}

// A command whose data have been put by, if that is within the limit.
pub fn first_command(kind: u8, code: u8, clock: u32, len: usize) -> Result<Start, Refusal>
    ensures { (c₀ c₁ l : List ℕ) → Joins len c₀ c₁ l → Starts result c₀ c₁ (limited kind (cmd code clock l)) }
{
    if DATA_LIMIT < len {
        return Err(Refusal::OverLong);
    }
    Ok(Start::Command(First {
        kind,
        code,
        clock,
        len,
    }))
}

// A command whose data are lists, one behind the other, which are put by.
pub fn command(
    kind: u8,
    code: u8,
    clock: u32,
    lists: &[&[u8]],
    pending: &mut [u8; DATA_LIMIT],
) -> Result<Start, Refusal>
    ensures { Starts result pending.old pending.new (limited kind (cmd code clock (joined lists.now))) }
{
    first_command(kind, code, clock, put_all(lists, pending))
}

// The command of stage 0, for which bytes have been put by, if that is within the limit.
pub fn staged(kind: u8, len: usize) -> Result<Start, Refusal>
    ensures { (c₀ c₁ l : List ℕ) → Joins len c₀ c₁ l → Starts result c₀ c₁ (staged_limited kind l) }
{
    if DATA_LIMIT < len {
        return Err(Refusal::OverLong);
    }
    Ok(Start::Staged(kind, len))
}
