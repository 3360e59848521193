// What is printed for an addition to the field, and for the bytes that the host wrote. Each function gives the length of its text.
#![tactic(auto, using(errors::specs::Rules::picks), unfolding(errors::specs::Choice::pick, crate::specs::Lines::addition_text, crate::specs::Lines::refused_text, crate::specs::Lines::sent_text))]

ghost use Rattle.chip_lines.specs.Lines.{refused_text, addition_text, sent_text};
ghost use Rattle.chip_lines.specs.Readings.{Prints};

use bench::{hex, prefix, text};
use errors::{Numbered, Refusal};
use framing::ACK_BYTES;
use simulated_chip::names::PACKET_SIZE;

pub(crate) fn put_refused(refusal: Refusal, out: &mut [u8]) -> usize
    ensures { Prints (refused_text refusal) result out.old out.new }
{
    let at = text::put(b"refused ", out, 0);
    text::put_decimal(u64::from(Numbered::from(refusal).number), out, at)
}

pub(crate) fn put_addition(addition: Result<(), Refusal>, out: &mut [u8]) -> usize
    ensures { Prints (addition_text addition) result out.old out.new }
{
    match addition {
        Ok(()) => text::put(b"ok", out, 0),
        Err(refusal) => put_refused(refusal, out),
    }
}

// The packets that the chip sends: ACK, and the one of so many bytes at the start of `buffer`.
fn put_packets(packet: Option<usize>, buffer: &[u8; PACKET_SIZE], out: &mut [u8]) -> usize
    ensures { Prints (sent_text (Ok packet) buffer.now) result out.old out.new }
{
    let Some(n) = packet else {
        return text::put(b"-", out, 0);
    };
    let first = hex::put(&ACK_BYTES, out, 0);
    let second = text::put(b" ", out, first);
    hex::put(prefix(n, buffer), out, second)
}

// What the chip sends, or the refusal.
pub(crate) fn put_sent(
    answer: Result<Option<usize>, Refusal>,
    buffer: &[u8; PACKET_SIZE],
    out: &mut [u8],
) -> usize
    ensures { Prints (sent_text answer buffer.now) result out.old out.new }
{
    match answer {
        Ok(packet) => put_packets(packet, buffer, out),
        Err(refusal) => put_refused(refusal, out),
    }
}
