// The discoveries (discovery.rs): how each starts, the command of each stage, and what follows each reply.
#![tactic(auto)]

pub mod dep;
mod list;
pub mod poll_type_f;
mod rates;
pub mod type_a;
pub mod type_a_split;
pub mod type_b;
pub mod type_f;

ghost use Rattle.stages.specs.Put.{joined};
ghost use Rattle.stages.specs.Starts.{Starts, staged_limited};

use errors::Refusal;
use stages::put::{DATA_LIMIT, put_all};
use stages::start;
use stages::start::Start;

// The discoveries, by the numbers that follow those of chipset's rules.
// Kept: numbers and no enum, since a call's kind stands in session memory, which is repr(C) and may hold any byte.
pub const TYPE_A_KIND: u8 = 17;

pub const TYPE_B_KIND: u8 = 18;

pub const TYPE_F_KIND: u8 = 19;

pub const DEP_KIND: u8 = 20;

pub const POLL_TYPE_F_KIND: u8 = 21;

pub const TYPE_A_SPLIT_KIND: u8 = 22;

// The first command is that of stage 0 of a kind; lists are put by for it, one behind the other.
fn staged(kind: u8, lists: &[&[u8]], command: &mut [u8; DATA_LIMIT]) -> Result<Start, Refusal>
    ensures { Starts result command.old command.new (staged_limited kind (joined lists.now)) }
{
    start::staged(kind, put_all(lists, command))
}
