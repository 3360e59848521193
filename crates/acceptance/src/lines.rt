// The list as text: each entry's frame in upper-case hex, with a line feed behind it.
#![tactic(auto, using(errors::specs::Rules::picks), unfolding(errors::specs::Choice::pick, bench::specs::Hex::digits_of_lem, bench::specs::Texts::over, crate::specs::Steps::frame_at, crate::specs::Steps::text_lines))]

ghost use Rattle.std.specs.Prelude.{◌≡◌, ◌+◌, ◌*◌, ◌/◌, ◌%◌, ◌≤◌, ◌<◌, length};
ghost use Rattle.bench.specs.Hex.{digits_of_lem};
ghost use Rattle.bench.specs.Texts.{over, placed, placed_at};
ghost use Rattle.acceptance.specs.Steps.{frame_at, text_lines, longest_line, Filled};

use super::Entry;
use errors::Refusal;

// The longest frame of a short payload has 12 bytes, two digits each.
const LONGEST_FRAME: usize = 12;

const LONGEST_LINE: usize = 25;

const DIGITS: [u8; 16] = *b"0123456789ABCDEF";

// Lines at the start of a buffer: their bytes, their number, and where the step behind the last one leads.
#[derive(Clone, Copy, Debug, PartialEq, Eq)]
pub struct Block {
    pub len: usize,
    pub count: usize,
    pub step: Result<Option<Entry>, Refusal>,
}

// Puts the digits of the bytes into the buffer from a place on. The table is filled before the loop: a constant that the loop itself
// names would be filled at each turn.
// Kept: `bench::hex` computes each digit. Tried: with it a run of short_frames takes 111 million instructions and not 65, of the 116 that
// benchmarks/run allows.
fn put_digits(bytes: &[u8], out: &mut [u8], at: usize)
    requires { at + 2 * length bytes.now ≤ length out.old }
    ensures { out.new ≡ over at (digits_of_lem bytes.now) out.old }
{
    let digits = DIGITS;
    for (i, byte) in bytes.iter().enumerate() {
        out[at + 2 * i] = digits[usize::from(byte / 16)];
        out[at + 2 * i + 1] = digits[usize::from(byte % 16)];
    }
}

// Puts the entry's line into the buffer from a place on, and gives the place behind it. An entry of no setting has none.
fn put_line(entry: Entry, out: &mut [u8], at: usize) -> usize
    requires { at + longest_line ≤ length out.old }
    ensures { placed result out.new ≡ placed_at at (text_lines (frame_at entry)) out.old }
{
    let mut frame = [0u8; LONGEST_FRAME];
    let Ok(n) = entry.frame(&mut frame) else {
        return at;
    };
    put_digits(&frame[..n], out, at);
    let end = at + 2 * n;
    out[end] = b'\n';
    end + 1
}

// Puts the lines from a step on into the buffer, as many as have room.
pub fn put_lines(step: Result<Option<Entry>, Refusal>, out: &mut [u8]) -> Block
    ensures { Filled step out.old result out.new }
{
    let mut len = 0;
    let mut count = 0;
    let mut step = step;
    // Kept: the next entry comes of the one before it, and how many there were is part of the answer.
    while let Some(entry) = step.unwrap_or(None) {
        if out.len() - len < LONGEST_LINE {
            break;
        }
        len = put_line(entry, out, len);
        step = entry.next();
        count += 1;
    }
    Block { len, count, step }
}
