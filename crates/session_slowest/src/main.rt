// The scripts of `slowest` played by `session` from fresh. A line in, as `slowest` reads it; out come the line, the number of its script's
// lines, and each answer that is no order behind the number of its line.
#![tactic(auto)]

ghost use Rattle.std.specs.Prelude.{◌≡◌, ◌+◌, ◌<◌, length, take, drop};
ghost use Rattle.octets.specs.Bytes.{index_of};

use bench::lines::Line;
use bench::{lines, prefix, text};
use bench_session::{BUFFER_SIZE, OUT_ROOM};
use engine::session::Session;
use octets::scan;
use slowest_call::lines::answer;
use slowest_call::script::SCRIPT_ROOM;

const LINE_ROOM: usize = 64;

const REPORT_ROOM: usize = 4096;

// Whether a printed answer ends a call or refuses: it is no order.
fn is_end(answer: &[u8]) -> bool {
    answer.starts_with(b"done") || answer.starts_with(b"none") || answer.starts_with(b"refused")
}

// The part before the first of a byte, and the part behind it; all and nothing where it is not there.
fn split_at_first(text: &[u8], byte: u8) -> (&[u8], &[u8])
    ensures shorter { 0 < length text.now → length result.1.now < length text.now }
    ensures parts { (result.0.now ≡ take (index_of byte text.now) text.now) × (result.1.now ≡ drop (index_of byte text.now + 1) text.now) }
{
    let at = scan::find(text, 0, text.len(), byte);
    if at < text.len() {
        (&text[..at], &text[at + 1..])
    } else {
        (text, &[])
    }
}

// An answer that is no order, with its number, behind a place of the report.
fn put_end(number: u64, answer: &[u8], report: &mut [u8], at: usize) -> usize {
    if is_end(answer) {
        let parted = text::put(b", ", report, at);
        let numbered = text::put_decimal(number, report, parted);
        let spaced = text::put(b" ", report, numbered);
        return text::put(answer, report, spaced);
    }
    at
}

// Plays the lines of a script, which stand behind its first word, and reports behind a place.
fn play(script: &[u8], report: &mut [u8], start: usize) -> usize {
    let mut session = Session::fresh();
    let mut buffer = [0u8; BUFFER_SIZE];
    let mut out = [0u8; OUT_ROOM];
    let (_, lines) = split_at_first(script, b' ');
    let mut rest = lines;
    let mut at = start;
    let mut played: u64 = 0;
    // Kept: each line ends where its semicolon stands; nothing is counted.
    while !rest.is_empty() {
        let (line, behind) = split_at_first(rest, b';');
        let answered = bench_session::answer(session, line.trim_ascii(), &mut buffer, &mut out);
        session = answered.state;
        played = played.saturating_add(1);
        at = put_end(played, prefix(answered.len, &out), report, at);
        rest = behind;
    }
    let all = text::put(b", of ", report, at);
    text::put_decimal(played, report, all)
}

// The report of a line, with a line feed; nothing at the end of the input.
fn report_of(next: Line, line: &[u8], report: &mut [u8]) -> usize {
    let Line::Text(n) = next else {
        return 0;
    };
    let asked = prefix(n, line);
    let mut script = [0u8; SCRIPT_ROOM];
    let len = answer(asked, &mut script);
    let named = text::put(asked, report, 0);
    let played = play(prefix(len, &script), report, named);
    text::put(b"\n", report, played)
}

fn main(rt: HostRuntime) {
    let mut line = [0u8; LINE_ROOM];
    let mut report = [0u8; REPORT_ROOM];
    lines::for_each(&rt, &mut line, |next, line| {
        let n = report_of(next, line, &mut report);
        lines::write(&rt, &report, n)
    });
}
