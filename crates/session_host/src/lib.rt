// The session as a host has it: calls and events by their numbers, the session updated in place, and what comes out in numbers.
#![tactic(auto)]

pub mod outcome;

ghost use Rattle.std.specs.Prelude.{◌≡◌};
ghost use Rattle.session_host.specs.Outcomes.{report};
ghost use Rattle.session_host.specs.Entries.{host_call, host_event, report_for};

use calls::start::Numbers;
use engine::session::Session;
use engine::{by_number, state};
use outcome::Outcome;

// A call, by its number. An order, an answer or a refusal comes out; bytes stand at the buffer's start.
// Kept: the parameters of the C entry, which hands on to this function.
pub fn call(
    session: &mut Session,
    number: u8,
    numbers: Numbers,
    first: &[u8],
    second: &[u8],
    third: &[u8],
    fourth: &[u8],
    buffer: &mut [u8],
) -> Outcome
    ensures { report session.new result buffer.new ≡ report_for session.old (host_call number numbers first.now second.now third.now fourth.now buffer.old) }
{
    let progress = state::call(
        session.core,
        &mut session.command,
        &mut session.frames,
        &mut session.books,
        number,
        numbers,
        first,
        second,
        third,
        fourth,
        buffer,
    );
    session.core = progress.core;
    Outcome::from(progress.output)
}

// An event, by its number, with a packet's bytes. What comes out is the same.
pub fn event(session: &mut Session, number: u8, packet: &[u8], buffer: &mut [u8]) -> Outcome
    ensures { report session.new result buffer.new ≡ report_for session.old (host_event number packet.now buffer.old) }
{
    let progress = by_number::event(
        session.core,
        &mut session.command,
        &mut session.found,
        &mut session.frames,
        &mut session.books,
        number,
        packet,
        buffer,
    );
    session.core = progress.core;
    Outcome::from(progress.output)
}
