// The lines of the program `codec`: one line in, one line out.
#![tactic(auto, using(crate::proofs::Branches::branches))]

mod blocks;
mod frames;

ghost use Rattle.std.specs.Prelude.{◌≡◌, ◌≤◌, length};
ghost use Rattle.bench.specs.Texts.{placed, placed_at, Appends};
ghost use Rattle.bench.specs.Words.{words_of_lem};
ghost use Rattle.bench_codec.specs.Codec.{line_limit, bytes_room, frame_room, answer_room, setting_named, on_bytes as on_bytes_of, on_format as on_format_of, two_words, three_words, four_words, five_words, on_words, answer_of, line_reply};
ghost use Rattle.bench_codec.specs.Codec.{unreadable as unreadable_text};

use bench::lines::Line;
use bench::{hex, lines, prefix, text, words};
use blocks::{PacketKind, PacketLine};
use framing::FrameFormat;

// The longest line, without its line feed, and room for the longest answer and a line feed.
pub const LINE_LIMIT: usize = 262144;

pub const ANSWER_ROOM: usize = 262208;

// Room for a frame, or for a line's bytes with their CRC.
const FRAME_ROOM: usize = 131088;

// The word of no bytes.
const NONE: &[u8] = b"-";

pub(crate) fn room() -> [u8; FRAME_ROOM]
    ensures { length result ≡ frame_room }
{
    [0u8; FRAME_ROOM]
}

pub(crate) fn unreadable(out: &mut [u8]) -> usize
    ensures { Appends 0 unreadable_text out.old result out.new }
{
    text::put(b"refused 4", out, 0)
}

// The setting of the word: one digit from 0 to 5.
fn setting(word: &[u8]) -> Option<FrameFormat>
    ensures { result ≡ setting_named word.now }
{
    match word {
        [digit @ b'0'..] => framing::settings::by_number(*digit - b'0'),
        _ => None,
    }
}

// A name and bytes.
// Kept: the tests one by one. A `match` on the names gives its last arm a case for each byte of each name; tried, and the proof did not close.
fn on_bytes(name: &[u8], bytes: &[u8], out: &mut [u8]) -> usize
    requires { length bytes.now ≤ bytes_room }
    ensures { Appends 0 (on_bytes_of name.now bytes.now) out.old result out.new }
{
    if framing::is_exactly(name, b"checksum") {
        return frames::checksum(bytes, out);
    }
    if framing::is_exactly(name, b"crc_a_check") {
        return frames::yes_or_no(crc::check_crc_a(bytes), out);
    }
    if framing::is_exactly(name, b"crc_b_check") {
        return frames::yes_or_no(crc::check_crc_b(bytes), out);
    }
    if framing::is_exactly(name, b"crc_a_append") {
        return frames::crc_a_append(bytes, out);
    }
    if framing::is_exactly(name, b"crc_b_append") {
        return frames::crc_b_append(bytes, out);
    }
    if framing::is_exactly(name, b"request") {
        return blocks::request(bytes, out);
    }
    unreadable(out)
}

// A name, a format and bytes.
// Kept: the tests one by one, as in `on_bytes`.
fn on_format(name: &[u8], format: FrameFormat, bytes: &[u8], out: &mut [u8]) -> usize
    ensures { Appends 0 (on_format_of name.now format bytes.now) out.old result out.new }
{
    if framing::is_exactly(name, b"build") {
        return frames::build(format, bytes, out);
    }
    if framing::is_exactly(name, b"parse") {
        return frames::parse(format, bytes, out);
    }
    if framing::is_exactly(name, b"parse_padded") {
        return frames::parse_padded(format, bytes, out);
    }
    unreadable(out)
}

// Kept: a word is no longer than its line, and a line may have any length: the fact is of the words, not of a type.
fn two_words(name: &[u8], word: &[u8], out: &mut [u8]) -> usize
    requires { length word.now ≤ line_limit }
    ensures { Appends 0 (two_words name.now word.now) out.old result out.new }
{
    if framing::is_exactly(name, b"bitrate") {
        return frames::bitrate(word, out);
    }
    let mut bytes = room();
    let Ok(n) = hex::read(word, &mut bytes) else {
        return unreadable(out);
    };
    on_bytes(name, &bytes[..n], out)
}

fn three_words(name: &[u8], number: &[u8], word: &[u8], out: &mut [u8]) -> usize
    requires { (length number.now ≤ line_limit) × (length word.now ≤ line_limit) }
    ensures { Appends 0 (three_words name.now number.now word.now) out.old result out.new }
{
    if framing::is_exactly(name, b"write_reply") {
        let line = PacketLine {
            kind: PacketKind::WriteReply,
            idm: number,
            pair: word,
            blocks: NONE,
            bytes: NONE,
        };
        return line.print(out);
    }
    let Some(format) = setting(number) else {
        return unreadable(out);
    };
    let mut bytes = room();
    let Ok(n) = hex::read(word, &mut bytes) else {
        return unreadable(out);
    };
    on_format(name, format, &bytes[..n], out)
}

fn four_words(name: &[u8], idm: &[u8], pair: &[u8], word: &[u8], out: &mut [u8]) -> usize
    requires { (length idm.now ≤ line_limit) × (length word.now ≤ line_limit) }
    ensures { Appends 0 (four_words name.now idm.now pair.now word.now) out.old result out.new }
{
    let line = PacketLine {
        kind: PacketKind::ReadRequest,
        idm,
        pair,
        blocks: word,
        bytes: NONE,
    };
    if framing::is_exactly(name, b"read_request") {
        return line.print(out);
    }
    if framing::is_exactly(name, b"read_reply") {
        let kind = PacketKind::ReadReply;
        return PacketLine { kind, ..line }.print(out);
    }
    unreadable(out)
}

// Kept: a struct of these would be built by the callers and opened here, which is no plainer.
fn five_words(
    name: &[u8],
    idm: &[u8],
    pair: &[u8],
    word: &[u8],
    last: &[u8],
    out: &mut [u8],
) -> usize
    requires { (length idm.now ≤ line_limit) × (length word.now ≤ line_limit) × (length last.now ≤ line_limit) }
    ensures { Appends 0 (five_words name.now idm.now pair.now word.now last.now) out.old result out.new }
{
    if framing::is_exactly(name, b"write_request") {
        let line = PacketLine {
            kind: PacketKind::WriteRequest,
            idm,
            pair,
            blocks: word,
            bytes: last,
        };
        return line.print(out);
    }
    unreadable(out)
}

fn by_words(line: &[u8], out: &mut [u8]) -> usize
    requires { length line.now ≤ line_limit }
    ensures { Appends 0 (on_words (words_of_lem line.now)) out.old result out.new }
{
    let name = words::word(line, 0);
    let second = words::word(line, 1);
    let third = words::word(line, 2);
    let fourth = words::word(line, 3);
    match words::count(line) {
        2 => two_words(name, second, out),
        3 => three_words(name, second, third, out),
        4 => four_words(name, second, third, fourth, out),
        5 => five_words(name, second, third, fourth, words::word(line, 4), out),
        _ => unreadable(out),
    }
}

// Puts the text printed for the line at the buffer's start, and gives its length.
pub fn answer(line: &[u8], out: &mut [u8; ANSWER_ROOM]) -> usize
    ensures { (placed result out.new ≡ placed_at 0 (answer_of line.now) out.old) × (length out.new ≡ answer_room) }
{
    if LINE_LIMIT < line.len() {
        return unreadable(out);
    }
    by_words(line, out)
}

// The answer to a line that stands at the start of `line`, with its line feed; nothing at the end of the input.
// Kept: a bound `Fn` may not name the length of the array that a reply is put into, so each program has its own, by its own definition.
pub fn reply(next: Line, line: &[u8], out: &mut [u8; ANSWER_ROOM]) -> usize
    ensures { placed result out.new ≡ placed_at 0 (line_reply next line.now) out.old }
{
    match next {
        Line::Text(n) => {
            let end = answer(prefix(n, line), out);
            text::put(b"\n", out, end)
        }
        Line::OverLong => {
            let end = unreadable(out);
            text::put(b"\n", out, end)
        }
        Line::End => 0,
    }
}

// Answers standard input line by line on standard output. `lines::next` has the contract of a line, by the bytes that come, and `reply`
// that of the text for it; free is what the operating system reads and writes.
// Kept: each program hands its own state and its own step to `for_each`.
pub fn run<R: Input + Print>(rt: &R) {
    let mut line = [0u8; LINE_LIMIT];
    let mut out = [0u8; ANSWER_ROOM];
    lines::for_each(rt, &mut line, |next, line| {
        let n = reply(next, line, &mut out);
        lines::write(rt, &out, n)
    });
}
