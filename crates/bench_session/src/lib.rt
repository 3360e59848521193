// The lines of the program `session`: a call or an event in, an order or an answer out.
#![tactic(auto, using(errors::specs::Rules::picks), unfolding(errors::specs::Choice::pick, crate::specs::Answers::answer_of, crate::specs::Answers::line_reply, crate::specs::Answers::said_step))]

pub mod output;

ghost use Rattle.std.specs.Prelude.{◌≡◌, ◌≤◌, length, Some};
ghost use Rattle.engine.specs.SessionSteps.{stepped};
ghost use Rattle.bench_input.specs.Readings.{input_in};
ghost use Rattle.bench_session.specs.Outputs.{out_room, text_limit};
ghost use Rattle.bench_session.specs.Answers.{said_step, after_line, answer_of, line_reply};

use bench::lines::{Answered, Line};
use bench::{lines, prefix};
use bench_input::{BYTES_ROOM, Ends, Input, LINE_LIMIT, slice};
use calls::start::Numbers;
use engine::by_number;
use engine::running::Output;
use engine::session::{Session, Step};
use errors::Refusal;

// Room for the engine's bytes, and for any answer and a line feed.
pub const BUFFER_SIZE: usize = 1024;

pub const OUT_ROOM: usize = 2112;

// A line that cannot be read: the session stays as it was.
fn unreadable(session: Session) -> Step
    ensures { (result.session ≡ session) × (result.output ≡ Output.Refused Refusal.BadArgument) }
{
    Step {
        session,
        output: Output::Refused(Refusal::BadArgument),
    }
}

// What the engine does with a call, whose byte strings stand one behind the other.
// Kept: a struct of these would be built by the callers and opened here, which is no plainer.
fn called(
    session: Session,
    number: u8,
    numbers: Numbers,
    ends: Ends,
    bytes: &[u8],
    buffer: &mut [u8],
) -> Step
    ensures { stepped result buffer.new ≡ said_step session (input_in bytes.now (Some (Input.Call number numbers ends))) buffer.old }
{
    let [first, second, third, fourth] = ends;
    session.call(
        number,
        numbers,
        slice(bytes, 0, first),
        slice(bytes, first, second),
        slice(bytes, second, third),
        slice(bytes, third, fourth),
        buffer,
    )
}

// What the engine does with an event, whose packet has n bytes.
fn on_event(session: Session, number: u8, n: usize, bytes: &[u8], buffer: &mut [u8]) -> Step
    ensures { stepped result buffer.new ≡ said_step session (input_in bytes.now (Some (Input.Event number n))) buffer.old }
{
    let Some(event) = by_number::event_by(number) else {
        return unreadable(session);
    };
    session.event(event, slice(bytes, 0, n), buffer)
}

// What the engine does with what was read.
pub fn step(session: Session, input: Option<Input>, bytes: &[u8], buffer: &mut [u8]) -> Step
    ensures { stepped result buffer.new ≡ said_step session (input_in bytes.now input) buffer.old }
{
    match input {
        Some(Input::Call(number, numbers, ends)) => {
            called(session, number, numbers, ends, bytes, buffer)
        }
        Some(Input::Event(number, n)) => on_event(session, number, n, bytes, buffer),
        None => unreadable(session),
    }
}

// Hands a line to the session, and puts the text printed for it at the start of `out`.
pub fn answer(
    session: Session,
    line: &[u8],
    buffer: &mut [u8; BUFFER_SIZE],
    out: &mut [u8; OUT_ROOM],
) -> Answered<Session>
    ensures { (after_line result.state result.len buffer.new out.new ≡ answer_of session line.now buffer.old out.old) × (result.len ≤ text_limit) × (length out.new ≡ out_room) }
{
    let mut bytes = [0u8; BYTES_ROOM];
    let input = bench_input::read(line, &mut bytes);
    let stepped = step(session, input, &bytes, buffer);
    let len = output::print(stepped.output, buffer, out);
    Answered {
        state: stepped.session,
        len,
    }
}

// The answer to a line that stands at the start of `line`, with its line feed; nothing at the end of the input.
// Kept: a bound `Fn` may not name the length of the array that a reply is put into, so each program has its own, by its own definition.
pub fn reply(
    session: Session,
    next: Line,
    line: &[u8],
    buffer: &mut [u8; BUFFER_SIZE],
    out: &mut [u8; OUT_ROOM],
) -> Answered<Session>
    ensures { (after_line result.state result.len buffer.new out.new ≡ line_reply session next line.now buffer.old out.old) × (length out.old ≡ out_room → length out.new ≡ out_room) }
{
    match next {
        Line::Text(n) => answer(session, prefix(n, line), buffer, out).fed(out),
        Line::OverLong => {
            let len = output::print(Output::Refused(Refusal::BadArgument), buffer, out);
            Answered {
                state: session,
                len,
            }
            .fed(out)
        }
        Line::End => Answered {
            state: session,
            len: 0,
        },
    }
}

// Answers standard input line by line on standard output. `lines::next` has the contract of a line, by the bytes that come, and `reply`
// that of the text for it; free is what the operating system reads and writes.
// Kept: each program hands its own state and its own step to `for_each`.
pub fn run<R: std::io::Input + Print>(rt: &R) {
    let mut line = [0u8; LINE_LIMIT];
    let mut buffer = [0u8; BUFFER_SIZE];
    let mut out = [0u8; OUT_ROOM];
    let mut session = Session::fresh();
    lines::for_each(rt, &mut line, |next, line| {
        let replied = reply(session, next, line, &mut buffer, &mut out);
        session = replied.state;
        lines::write(rt, &out, replied.len)
    });
}
