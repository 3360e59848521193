// The lines of the program `slowest`: a call's word and a number of idle reads in, the script of its longest run out.
ghost use Rattle.std.specs.Prelude.{◌≡◌, ◌≤◌, length};
ghost use Rattle.bench.specs.Texts.{placed, placed_at};
ghost use Rattle.slowest_call.specs.Texts.{script_limit, script_room, refused_text, answer_text, line_text};

use super::script::{SCRIPT_ROOM, script};
use super::table::{RUN_TABLE, Runs};
use bench::lines::Line;
use bench::{lines, number, prefix, text, words};
use errors::{Numbered, Refusal};

// The longest line, without its line feed.
pub const LINE_LIMIT: usize = 8192;

// A refusal's number.
fn put_refused(refusal: Refusal, out: &mut [u8; SCRIPT_ROOM]) -> usize
    ensures { (placed result out.new ≡ placed_at 0 (refused_text refusal) out.old) × (result ≤ script_limit) }
{
    let at = text::put(b"refused ", out, 0);
    text::put_decimal(Numbered::from(refusal).number as u64, out, at)
}

// The text that is printed for a line, at the start of `out`.
pub fn answer(line: &[u8], out: &mut [u8; SCRIPT_ROOM]) -> usize
    ensures { (placed result out.new ≡ placed_at 0 (answer_text line.now) out.old) × (result ≤ script_limit) }
{
    if words::count(line) != 2 {
        return put_refused(Refusal::BadArgument, out);
    }
    let runs = Runs { table: &RUN_TABLE };
    let Some(kind) = runs.kind_named(words::word(line, 0)) else {
        return put_refused(Refusal::BadArgument, out);
    };
    let Some(idle) = number::read(words::word(line, 1)) else {
        return put_refused(Refusal::BadArgument, out);
    };
    match script(kind, idle, out) {
        Ok(n) => n,
        Err(refusal) => put_refused(refusal, out),
    }
}

// The answer to a line that stands at the start of `line`, with its line feed; nothing at the end of the input.
// Kept: a bound `Fn` may not name the length of the array that a reply is put into, so each program has its own, by its own definition.
pub fn reply(next: Line, line: &[u8], out: &mut [u8; SCRIPT_ROOM]) -> usize
    ensures { (placed result out.new ≡ placed_at 0 (line_text next line.now) out.old) × (length out.old ≡ script_room → length out.new ≡ script_room) }
{
    match next {
        Line::Text(n) => {
            let len = answer(prefix(n, line), out);
            text::put(b"\n", out, len)
        }
        Line::OverLong => {
            let len = put_refused(Refusal::BadArgument, out);
            text::put(b"\n", out, len)
        }
        Line::End => 0,
    }
}

// Answers standard input line by line on standard output. `lines::next` has the contract of a line, by the bytes that come, and `reply`
// that of the text for it; free is what the operating system reads and writes.
// Kept: each program hands its own state and its own step to `for_each`.
pub fn run<R: Input + Print>(rt: &R) {
    let mut line = [0u8; LINE_LIMIT];
    let mut out = [0u8; SCRIPT_ROOM];
    lines::for_each(rt, &mut line, |next, line| {
        let n = reply(next, line, &mut out);
        lines::write(rt, &out, n)
    });
}
