// The lines of the program `chip`: cards and replies for the field, and the bytes that a host wrote, in; the packets that the chip sends, out.
#![tactic(auto, using(errors::specs::Rules::picks), unfolding(errors::specs::Choice::pick, bench::specs::Words::words_of_lem, crate::specs::ChipLines::bitrate_named_of, crate::specs::ChipLines::card_line_of, crate::specs::ChipLines::chip_line_of, crate::specs::ChipLines::on_words, crate::specs::ChipLines::kind_named_of, crate::specs::ChipLines::reply_line_of, crate::specs::Lines::line_reply, crate::specs::Lines::refused_text, simulated_chip::specs::Steps::zeros))]

mod print;

ghost use Rattle.std.specs.Prelude.{◌≡◌, ◌≤◌, length};
ghost use Rattle.bench.specs.Words.{words_of_lem};
ghost use Rattle.chip_protocol.specs.Names.{longest_packet};
ghost use Rattle.simulated_chip.specs.Steps.{zeros};
ghost use Rattle.chip_lines.specs.ChipLines.{line_limit, bytes_room, ChipLine, frame, hexed, bitrate_named_of, kind_named_of, card_line_of, reply_line_of, on_words, chip_line_of};
ghost use Rattle.chip_lines.specs.Lines.{answer_room, refused_text, answer_to, after_line, line_reply};
ghost use Rattle.chip_lines.specs.Readings.{Prints, Answers};

use bench::lines::Line;
use bench::{hex, lines, prefix, text, words};
use chip_protocol::Kind;
use errors::Refusal;
use simulated_chip::chip::{Chip, State};
use simulated_chip::names::PACKET_SIZE;
use targets::Bitrate;

// The longest line, without its line feed, and room for any answer and a line feed.
pub const LINE_LIMIT: usize = 8192;

pub const ANSWER_ROOM: usize = 2112;

// Room for the bytes of a line's HEX.
const BYTES_ROOM: usize = 4096;

fn room() -> [u8; BYTES_ROOM]
    ensures { length result ≡ bytes_room }
{
    [0u8; BYTES_ROOM]
}

fn packet_room() -> [u8; PACKET_SIZE]
    ensures { result ≡ zeros longest_packet }
{
    [0u8; PACKET_SIZE]
}

// A line that cannot be read.
fn unreadable(out: &mut [u8]) -> usize
    ensures { Prints (refused_text Refusal.BadArgument) result out.old out.new }
{
    print::put_refused(Refusal::BadArgument, out)
}

// The bitrates that a discovery takes, by their texts.
fn bitrate_named(word: &[u8]) -> Bitrate
    ensures { result ≡ bitrate_named_of word.now }
{
    if framing::is_exactly(word, b"106A") {
        return Bitrate::B106A;
    }
    if framing::is_exactly(word, b"212F") {
        return Bitrate::B212F;
    }
    if framing::is_exactly(word, b"424F") {
        return Bitrate::B424F;
    }
    if framing::is_exactly(word, b"106B") {
        return Bitrate::B106B;
    }
    Bitrate::Other
}

// The kinds of a card that has no reply to WUPB, by their texts.
fn kind_named(word: &[u8]) -> Option<Kind>
    ensures { result ≡ kind_named_of word.now }
{
    if framing::is_exactly(word, b"A") {
        return Some(Kind::TypeA);
    }
    if framing::is_exactly(word, b"F") {
        return Some(Kind::TypeF);
    }
    if framing::is_exactly(word, b"DEP") {
        return Some(Kind::Dep);
    }
    None
}

// An empty field.
fn fresh_line(chip: &mut Chip, out: &mut [u8]) -> usize
    ensures { Answers (answer_to chip.old ChipLine.fresh) chip.new result out.old out.new }
{
    chip.state = State::fresh();
    text::put(b"ok", out, 0)
}

// A card more in the field.
// Kept: a struct of these would be built by the callers and opened here, which is no plainer.
fn card_line(
    chip: &mut Chip,
    kind: Kind,
    rate: &[u8],
    word: &[u8],
    last: &[u8],
    out: &mut [u8],
) -> usize
    requires { (length word.now ≤ line_limit) × (length last.now ≤ line_limit) }
    ensures { Answers (answer_to chip.old (card_line_of kind rate.now word.now last.now)) chip.new result out.old out.new }
{
    let mut list_data = room();
    let Ok(n) = hex::read(word, &mut list_data) else {
        return unreadable(out);
    };
    let mut atqb = room();
    let Ok(m) = hex::read(last, &mut atqb) else {
        return unreadable(out);
    };
    let added = chip.add_card(
        kind,
        bitrate_named(rate),
        prefix(n, &list_data),
        prefix(m, &atqb),
    );
    print::put_addition(added, out)
}

// A reply more of the card added last.
fn reply_line(chip: &mut Chip, word: &[u8], last: &[u8], out: &mut [u8]) -> usize
    requires { (length word.now ≤ line_limit) × (length last.now ≤ line_limit) }
    ensures { Answers (answer_to chip.old (reply_line_of word.now last.now)) chip.new result out.old out.new }
{
    let mut bytes = room();
    let Ok(n) = hex::read(word, &mut bytes) else {
        return unreadable(out);
    };
    let mut reply = room();
    let Ok(m) = hex::read(last, &mut reply) else {
        return unreadable(out);
    };
    let added = chip.add_reply(prefix(n, &bytes), prefix(m, &reply));
    print::put_addition(added, out)
}

// The bytes that the host wrote.
fn frame_line(chip: &mut Chip, word: &[u8], out: &mut [u8]) -> usize
    requires { length word.now ≤ line_limit }
    ensures { Answers (answer_to chip.old (hexed word.now (λ p. frame p))) chip.new result out.old out.new }
{
    let mut written = room();
    let Ok(n) = hex::read(word, &mut written) else {
        return unreadable(out);
    };
    let mut buffer = packet_room();
    let answer = chip.step(prefix(n, &written), &mut buffer);
    print::put_sent(answer, &buffer, out)
}

// A line by its words.
fn by_words(chip: &mut Chip, line: &[u8], out: &mut [u8]) -> usize
    requires { length line.now ≤ line_limit }
    ensures { Answers (answer_to chip.old (on_words (words_of_lem line.now))) chip.new result out.old out.new }
{
    let name = words::word(line, 0);
    let second = words::word(line, 1);
    let third = words::word(line, 2);
    let fourth = words::word(line, 3);
    // Kept: a `match` on the names gives its last arm a case for each byte of each name; the guards test one by one.
    match words::count(line) {
        1 if framing::is_exactly(name, b"fresh") => fresh_line(chip, out),
        2 if framing::is_exactly(name, b"frame") => frame_line(chip, second, out),
        3 if framing::is_exactly(name, b"reply") => reply_line(chip, second, third, out),
        4 if framing::is_exactly(name, b"card") => {
            let Some(kind) = kind_named(second) else {
                return unreadable(out);
            };
            card_line(chip, kind, third, fourth, b"-", out)
        }
        5 if framing::is_exactly(name, b"card") && framing::is_exactly(second, b"B") => {
            card_line(chip, Kind::TypeB, third, fourth, words::word(line, 4), out)
        }
        _ => unreadable(out),
    }
}

// Hands a line to the chip, and puts the text printed for it at the start of `out`; how long the text is.
pub fn answer(chip: &mut Chip, line: &[u8], out: &mut [u8]) -> usize
    ensures { Answers (answer_to chip.old (chip_line_of line.now)) chip.new result out.old out.new }
{
    if LINE_LIMIT < line.len() {
        return unreadable(out);
    }
    by_words(chip, line, out)
}

// The answer to a line that stands at the start of `line`, with its line feed; nothing at the end of the input. How long it is.
// Kept: a bound `Fn` may not name the length of the array that a reply is put into, so each program has its own, by its own definition.
pub fn reply(chip: &mut Chip, next: Line, line: &[u8], out: &mut [u8; ANSWER_ROOM]) -> usize
    ensures out_after { after_line chip.new result out.new ≡ line_reply chip.old next line.now out.old }
    ensures out_len { length out.old ≡ answer_room → length out.new ≡ answer_room }
{
    match next {
        Line::Text(n) => {
            let len = answer(chip, prefix(n, line), out);
            text::put(b"\n", out, len)
        }
        Line::OverLong => {
            let len = unreadable(out);
            text::put(b"\n", out, len)
        }
        Line::End => 0,
    }
}

// Answers standard input line by line on standard output. `lines::for_each` hands over each line, and `reply` has the contract of the text
// for it; free is what the operating system reads and writes.
// Kept: each program hands its own state and its own step to `for_each`.
pub fn run<R: Input + Print>(rt: &R) {
    let mut line = [0u8; LINE_LIMIT];
    let mut out = [0u8; ANSWER_ROOM];
    let mut chip = Chip::fresh();
    lines::for_each(rt, &mut line, |next, line| {
        let n = reply(&mut chip, next, line, &mut out);
        lines::write(rt, &out, n)
    });
}
