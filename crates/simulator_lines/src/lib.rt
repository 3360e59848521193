// The lines of the program `simulator`: a reader, and a chip with its field of cards at its other end.
#![tactic(auto, using(errors::specs::Rules::picks), unfolding(errors::specs::Choice::pick))]

pub mod channel;
pub mod play;
mod request;

ghost use Rattle.std.specs.Prelude.{◌≡◌};
ghost use Rattle.bench_input.specs.Readings.{input_in};
ghost use Rattle.simulator_lines.specs.Plays.{call_played};
ghost use Rattle.simulator_lines.specs.Lines.{Simulator as Defined, call_ended};
ghost use Rattle.simulator_lines.specs.Represents.{SimulatorIn, Answers};

use bench::lines::Line;
use bench::{lines, prefix, text};
use bench_input::{BYTES_ROOM, Input, LINE_LIMIT};
use bench_session::{BUFFER_SIZE, OUT_ROOM, output};
use channel::Channel;
use engine::session::Session;
use play::Simulator;
use request::Request;

impl Simulator {
    // A reader that nothing was asked of, and an empty field.
    pub(crate) fn fresh() -> Simulator {
        Simulator {
            session: Session::fresh(),
            channel: Channel::fresh(),
            trace: false,
            buffer: [0; BUFFER_SIZE],
            out: [0; OUT_ROOM],
        }
    }

    // A call, played to its end; the length of the text printed for it.
    fn called(&mut self, rt: &impl Print, input: Option<Input>, bytes: &[u8; BYTES_ROOM]) -> usize
        ensures { (z : Defined) → SimulatorIn self.old z → Answers self.new result (call_ended (call_played z.session z.channel (input_in bytes.now input))) }
    {
        let step = bench_session::step(self.session, input, bytes, &mut self.buffer);
        self.session = step.session;
        let last = self.to_end(rt, step.output);
        output::print(last, &self.buffer, &mut self.out)
    }

    // A line that cannot be read.
    fn refused(&mut self) -> usize {
        text::put(b"refused 4", &mut self.out, 0)
    }

    // A line by what it asks for.
    fn answer(&mut self, rt: &impl Print, line: &[u8]) -> usize {
        let mut bytes = [0u8; BYTES_ROOM];
        match request::read(line, &mut bytes) {
            Some(Request::Field) => chip_lines::answer(&mut self.channel.chip, line, &mut self.out),
            Some(Request::Trace(trace)) => {
                self.trace = trace;
                text::put(b"ok", &mut self.out, 0)
            }
            Some(Request::Call(number, numbers, ends)) => {
                self.called(rt, Some(Input::Call(number, numbers, ends)), &bytes)
            }
            None => self.refused(),
        }
    }

    // A line feed behind the text.
    fn fed(&mut self, len: usize) -> usize {
        text::put(b"\n", &mut self.out, len)
    }

    // The answer to a line that stands at the start of `line`, with its line feed; nothing at the end of the input. How long it is.
    // Kept: the simulator holds its answer's array itself, so its reply is a method, beside the functions of the other programs.
    fn reply(&mut self, rt: &impl Print, next: Line, line: &[u8]) -> usize {
        match next {
            Line::Text(n) => {
                let len = self.answer(rt, prefix(n, line));
                self.fed(len)
            }
            Line::OverLong => {
                let len = self.refused();
                self.fed(len)
            }
            Line::End => 0,
        }
    }
}

// Answers standard input line by line on standard output.
// Kept: each program hands its own state and its own step to `for_each`.
pub fn run<R: std::io::Input + Print>(rt: &R) {
    let mut line = [0u8; LINE_LIMIT];
    let mut simulator = Simulator::fresh();
    lines::for_each(rt, &mut line, |next, line| {
        let n = simulator.reply(rt, next, line);
        lines::write(rt, &simulator.out, n)
    });
}
