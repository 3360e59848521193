// The lines of the program `presence`: a round in; the arrivals, the departures and the list out.
#![tactic(auto, using(errors::specs::Rules::picks), unfolding(errors::specs::Choice::pick, crate::specs::Lines::answer_of, crate::specs::Lines::line_reply, crate::specs::Lines::text_of))]

mod print;
mod read;

ghost use Rattle.std.specs.Prelude.{◌≡◌, length};
ghost use Rattle.bench.specs.Texts.{Appends};
ghost use Rattle.presence_list.specs.Sizes.{FewAfter};
ghost use Rattle.presence_lines.specs.Lines.{records_room, unreadable as unreadable_text, text_of, answer_of, after_line, line_reply};

use bench::lines::Line;
use bench::{lines, prefix, text};
use errors::{Refusal, RoundRefusal};
use presence_list::list::{Counts, Presence};

// The longest line, without its line feed, and room for any answer and a line feed.
pub const LINE_LIMIT: usize = 65536;

pub const ANSWER_ROOM: usize = 8192;

// Room for the records of the longest line: the shortest card has 8 bytes, and a space stands before it.
const RECORDS_ROOM: usize = 145660;

fn room() -> [u8; RECORDS_ROOM]
    ensures { length result ≡ records_room }
{
    [0u8; RECORDS_ROOM]
}

// A line that cannot be read.
fn unreadable(out: &mut [u8]) -> usize
    ensures { Appends 0 unreadable_text out.old result out.new }
{
    print::put_refused(Refusal::BadArgument.into(), out)
}

// The text of a round that the list answered so.
fn report(list: &Presence, answer: Result<Counts, RoundRefusal>, out: &mut [u8]) -> usize
    requires { FewAfter answer list.now.state.count }
    ensures { Appends 0 (text_of answer list.now) out.old result out.new }
{
    match answer {
        Ok(counts) => print::put_report(list, counts, out),
        Err(refusal) => print::put_refused(refusal, out),
    }
}

// Hands a line to the list, and puts the text printed for it at the start of `out`. A line that cannot be read leaves the list as it was.
fn answer(list: &mut Presence, line: &[u8], out: &mut [u8]) -> usize
    ensures { (list.new ≡ (answer_of list.old line.now).list) × Appends 0 (answer_of list.old line.now).text out.old result out.new }
{
    if LINE_LIMIT < line.len() {
        return unreadable(out);
    }
    let mut records = room();
    let Some(round) = read::read_line(line, &mut records) else {
        return unreadable(out);
    };
    let answer = list.round(round.number, &records[..round.len]);
    report(list, answer, out)
}

// The answer to a line that stands at the start of `line`, with its line feed; nothing at the end of the input.
// Kept: a bound `Fn` may not name the length of the array that a reply is put into, so each program has its own, by its own definition.
pub fn reply(list: &mut Presence, next: Line, line: &[u8], out: &mut [u8; ANSWER_ROOM]) -> usize
    ensures { after_line list.new result out.new ≡ line_reply list.old next line.now out.old }
{
    match next {
        Line::Text(n) => {
            let end = answer(list, prefix(n, line), out);
            text::put(b"\n", out, end)
        }
        Line::OverLong => {
            let end = unreadable(out);
            text::put(b"\n", out, end)
        }
        Line::End => 0,
    }
}

// Answers standard input line by line on standard output. `lines::next` has the contract of a line, by the bytes that come, and `reply`
// that of the text for it; free is what the operating system reads and writes.
// Kept: each program hands its own state and its own step to `for_each`.
pub fn run<R: Input + Print>(rt: &R) {
    let mut line = [0u8; LINE_LIMIT];
    let mut out = [0u8; ANSWER_ROOM];
    let mut list = Presence::empty();
    lines::for_each(rt, &mut line, |next, line| {
        let n = reply(&mut list, next, line, &mut out);
        lines::write(rt, &out, n)
    });
}
