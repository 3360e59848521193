// The lines of frames, CRCs and bitrates. Each function puts its answer at the buffer's start, and gives its length.
#![tactic(auto, using(crate::proofs::Branches::frame_texts))]

ghost use Rattle.std.specs.Prelude.{◌≡◌, List, ◌++◌, ℕ, ◌≤◌, length};
ghost use Rattle.errors.specs.Refusals.{Returned, returned};
ghost use Rattle.crc.specs.Answers.{added as added_to};
ghost use Rattle.crc.specs.Crc.{CrcKind, type_a, type_b};
ghost use Rattle.bench.specs.Texts.{decimal_of, Appends};
ghost use Rattle.bench_codec.specs.Codec.{bytes_room, frame_room, build_text, data_text, found_text, parse_text, padded_text, checksum_text, yes_or_no, append_text, bitrate_text, bitrate_word};

use super::{room, unreadable};
use bench::{hex, text};
use errors::Refusal;
use framing::{FrameFormat, FrameType};

pub(crate) fn build(format: FrameFormat, payload: &[u8], out: &mut [u8]) -> usize
    ensures { Appends 0 (build_text format payload.now) out.old result out.new }
{
    let mut frame = room();
    let Ok(n) = framing::build(format, payload, &mut frame) else {
        return text::put(b"refused 3", out, 0);
    };
    hex::put(&frame[..n], out, 0)
}

// A word and a length.
fn put_kind(name: &[u8], count: usize, out: &mut [u8]) -> usize
    ensures { Appends 0 (name.now ++ decimal_of count) out.old result out.new }
{
    let at = text::put(name, out, 0);
    text::put_decimal(count as u64, out, at)
}

// A data frame: its length and its payload.
fn put_data(count: usize, payload: &[u8], out: &mut [u8]) -> usize
    ensures { Appends 0 (data_text count payload.now) out.old result out.new }
{
    let at = put_kind(b"data ", count, out);
    let next = text::put(b" ", out, at);
    hex::put(payload, out, next)
}

// What was found of a packet.
#[tactic(auto, using(crate::proofs::Branches::frame_texts), unfolding(crate::specs::Codec::found_text))]
fn put_found(found: Option<FrameType>, packet: &[u8], out: &mut [u8]) -> usize
    ensures { Appends 0 (found_text found packet.now) out.old result out.new }
{
    match found {
        Some(FrameType::Ack(n)) => put_kind(b"ack ", n, out),
        Some(FrameType::Error(n)) => put_kind(b"error ", n, out),
        Some(FrameType::Data { frame, .. }) => put_data(
            frame,
            framing::payload(packet, found),
            out,
        ),
        None => text::put(b"none", out, 0),
    }
}

pub(crate) fn parse(format: FrameFormat, packet: &[u8], out: &mut [u8]) -> usize
    ensures { Appends 0 (parse_text format packet.now) out.old result out.new }
{
    put_found(framing::parse(format, packet), packet, out)
}

// The same with the padded mode on, and behind a frame the number of extra zeros.
pub(crate) fn parse_padded(format: FrameFormat, packet: &[u8], out: &mut [u8]) -> usize
    ensures { Appends 0 (padded_text format packet.now) out.old result out.new }
{
    let padded = framing::padded::parse_padded(format, true, packet);
    let found = padded.found;
    let end = put_found(found, packet, out);
    if found.is_some() {
        let at = text::put(b" ", out, end);
        return text::put_decimal(padded.zeros as u64, out, at);
    }
    end
}

pub(crate) fn checksum(bytes: &[u8], out: &mut [u8]) -> usize
    ensures { Appends 0 (checksum_text bytes.now) out.old result out.new }
{
    let sum = [framing::checksum(bytes)];
    hex::put(&sum, out, 0)
}

pub(crate) fn yes_or_no(yes: bool, out: &mut [u8]) -> usize
    ensures { Appends 0 (yes_or_no yes) out.old result out.new }
{
    if yes {
        text::put(b"yes", out, 0)
    } else {
        text::put(b"no", out, 0)
    }
}

// Bytes to which their CRC was added, in a buffer that has the room.
fn put_added(added: Result<usize, Refusal>, frame: &[u8], out: &mut [u8]) -> usize
    ensures { (k : CrcKind) (s b : List ℕ) → ◌≡◌ {A = Returned × List ℕ} (returned added, frame.now) (added_to k s b) → length s ≤ bytes_room → length b ≡ frame_room → Appends 0 (append_text k s) out.old result out.new }
{
    let Ok(n) = added else {
        return unreadable(out);
    };
    if frame.len() < n {
        return unreadable(out);
    }
    hex::put(&frame[..n], out, 0)
}

// Kept: this and the next differ in the function of `crc` that they call alone; what they share is `put_added`.
pub(crate) fn crc_a_append(bytes: &[u8], out: &mut [u8]) -> usize
    requires { length bytes.now ≤ bytes_room }
    ensures { Appends 0 (append_text type_a bytes.now) out.old result out.new }
{
    let mut frame = room();
    let added = crc::add_crc_a(bytes, &mut frame);
    put_added(added, &frame, out)
}

pub(crate) fn crc_b_append(bytes: &[u8], out: &mut [u8]) -> usize
    requires { length bytes.now ≤ bytes_room }
    ensures { Appends 0 (append_text type_b bytes.now) out.old result out.new }
{
    let mut frame = room();
    let added = crc::add_crc_b(bytes, &mut frame);
    put_added(added, &frame, out)
}

// The send part of a bitrate.
fn send_part(rate: &[u8], out: &mut [u8]) -> usize
    ensures { Appends 0 (bitrate_text rate.now) out.old result out.new }
{
    let Ok(n) = targets::parse(rate) else {
        return text::put(b"refused 5", out, 0);
    };
    let at = text::put(b"ok ", out, 0);
    text::put(&rate[..n], out, at)
}

pub(crate) fn bitrate(word: &[u8], out: &mut [u8]) -> usize
    ensures { Appends 0 (bitrate_word word.now) out.old result out.new }
{
    if word.len() == 0 {
        return unreadable(out);
    }
    if framing::is_exactly(word, b"-") {
        send_part(&word[0..0], out)
    } else {
        send_part(word, out)
    }
}
