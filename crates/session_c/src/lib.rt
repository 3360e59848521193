// The C interface of the session, as include/rcs956.h describes it: the session is updated in place.
#![tactic(auto)]

ghost use Rattle.std.specs.Prelude.{◌≡◌};
ghost use Rattle.engine.specs.SessionSteps.{fresh_session};
ghost use Rattle.session_host.specs.Outcomes.{report};
ghost use Rattle.session_host.specs.Entries.{host_call, host_event, report_for};

use calls::start::Numbers;
use engine::session::Session;
use session_host::outcome::Outcome;

// A session in which no call runs, and with no opening behind it.
#[unsafe(no_mangle)]
pub extern "C" fn rcs956_fresh() -> Session
    ensures { result ≡ fresh_session }
{
    Session::fresh()
}

// A call, by its number. An order, an answer or a refusal comes out; bytes stand at the buffer's start.
// Kept: the parameters of the C interface.
#[unsafe(no_mangle)]
pub extern "C" fn rcs956_call(
    session: &mut Session,
    number: u8,
    numbers: Numbers,
    first: &[u8],
    second: &[u8],
    third: &[u8],
    fourth: &[u8],
    buffer: &mut [u8],
) -> Outcome
    ensures { report session.new result buffer.new ≡ report_for session.old (host_call number numbers first.now second.now third.now fourth.now buffer.old) }
{
    session_host::call(
        session, number, numbers, first, second, third, fourth, buffer,
    )
}

// An event, by its number, with a packet's bytes. What comes out is the same.
#[unsafe(no_mangle)]
pub extern "C" fn rcs956_event(
    session: &mut Session,
    number: u8,
    packet: &[u8],
    buffer: &mut [u8],
) -> Outcome
    ensures { report session.new result buffer.new ≡ report_for session.old (host_event number packet.now buffer.old) }
{
    session_host::event(session, number, packet, buffer)
}
