// A line of the program, read.
#![tactic(auto, using(errors::specs::Rules::picks), unfolding(errors::specs::Choice::pick, crate::specs::Requests::asked_of, crate::specs::Requests::is_field_name_of))]

ghost use Rattle.std.specs.Prelude.{◌≡◌};
ghost use Rattle.simulator_lines.specs.Requests.{is_field_name_of, asked_of, asked_in};

use bench::words;
use bench_input::{BYTES_ROOM, Ends, Input, LINE_LIMIT};
use calls::start::Numbers;

// A line for the field, the trace, or a call with the places of its byte strings.
#[derive(Clone, Copy)]
pub enum Request {
    Field,
    Trace(bool),
    Call(u8, Numbers, Ends),
}

fn is_field_name(word: &[u8]) -> bool
    ensures { result ≡ is_field_name_of word.now }
{
    framing::is_exactly(word, b"fresh")
        || framing::is_exactly(word, b"card")
        || framing::is_exactly(word, b"reply")
}

// What the line asks for; the byte strings of a call stand in the array. Where it is no call, all bytes of the array are free.
pub(crate) fn read(line: &[u8], bytes: &mut [u8; BYTES_ROOM]) -> Option<Request>
    ensures { asked_in bytes.new result ≡ asked_of line.now }
{
    if LINE_LIMIT < line.len() {
        return None;
    }
    if is_field_name(words::word(line, 0)) {
        return Some(Request::Field);
    }
    if framing::is_exactly(line, b"trace on") {
        return Some(Request::Trace(true));
    }
    if framing::is_exactly(line, b"trace off") {
        return Some(Request::Trace(false));
    }
    match bench_input::read(line, bytes)? {
        Input::Call(number, numbers, ends) => Some(Request::Call(number, numbers, ends)),
        Input::Event(_, _) => None,
    }
}
