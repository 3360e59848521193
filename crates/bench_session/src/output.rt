// What is printed for an order or an answer.
#![tactic(auto, using(errors::specs::Rules::picks), unfolding(errors::specs::Choice::pick, bench::specs::Hex::hex_of, bench::specs::Texts::decimal_of, crate::specs::Outputs::done_text, crate::specs::Outputs::lengths_text, crate::specs::Outputs::list_refused_text, crate::specs::Outputs::refused_text, crate::specs::Outputs::text_of, crate::specs::Outputs::type1_text))]

ghost use Rattle.std.specs.Prelude.{◌≡◌, ◌≤◌, ◌++◌, length};
ghost use Rattle.bench.specs.Texts.{placed, placed_at, decimal_of, Appends};
ghost use Rattle.bench.specs.Hex.{hex_of};
ghost use Rattle.bench_session.specs.Outputs.{out_room, text_limit, done_text, type1_text, lengths_text, refused_text, list_refused_text, text_of};

use super::{BUFFER_SIZE, OUT_ROOM};
use bench::{hex, prefix, text};
use engine::running::Output;
use errors::{CARD_STATUS_NUMBER, Numbered, STATUS_NUMBER};
use framing::ACK_SIZE;

// Kept: one puts a text behind a name and the other a number: what they share is `text::put`.
fn put_named(name: &[u8], bytes: &[u8], out: &mut [u8]) -> usize
    ensures { Appends 0 (name.now ++ hex_of bytes.now) out.old result out.new }
{
    let at = text::put(name, out, 0);
    hex::put(bytes, out, at)
}

// A name and a number behind the text that ends at a place.
fn put_number(name: &[u8], number: u64, out: &mut [u8], at: usize) -> usize
    ensures { Appends at (name.now ++ decimal_of number) out.old result out.new }
{
    let behind = text::put(name, out, at);
    text::put_decimal(number, out, behind)
}

// An answer's bytes; `done` alone where it has none.
fn put_done(bytes: &[u8], out: &mut [u8]) -> usize
    ensures { Appends 0 (done_text bytes.now) out.old result out.new }
{
    if bytes.is_empty() {
        return text::put(b"done", out, 0);
    }
    put_named(b"done ", bytes, out)
}

// A Type 1 answer's bytes, of which there are always some.
fn put_type1(bytes: &[u8], out: &mut [u8]) -> usize
    ensures { Appends 0 (type1_text bytes.now) out.old result out.new }
{
    let at = put_named(b"done ", bytes, out);
    text::put(b" type1", out, at)
}

// An answer's bytes, of which there are always some, and the lengths of the UID and the ATS among them.
fn put_lengths(bytes: &[u8], uid: u8, ats: u8, out: &mut [u8]) -> usize
    ensures { Appends 0 (lengths_text bytes.now uid ats) out.old result out.new }
{
    let at = put_named(b"done ", bytes, out);
    let behind = put_number(b" uid ", u64::from(uid), out, at);
    put_number(b" ats ", u64::from(ats), out, behind)
}

// A refusal's number, and the status of 15 or both status flags of 20.
fn put_refused(numbered: Numbered, out: &mut [u8]) -> usize
    ensures { Appends 0 (refused_text numbered) out.old result out.new }
{
    let at = put_number(b"refused ", u64::from(numbered.number), out, 0);
    if numbered.number == STATUS_NUMBER {
        let status = [numbered.status];
        let next = text::put(b" ", out, at);
        return hex::put(&status, out, next);
    }
    if numbered.number == CARD_STATUS_NUMBER {
        let flags = [numbered.status, numbered.status2];
        let next = text::put(b" ", out, at);
        return hex::put(&flags, out, next);
    }
    at
}

// The refusal that ends a list, and how many of its codes were finished.
fn put_list_refused(numbered: Numbered, finished: u8, out: &mut [u8]) -> usize
    ensures { Appends 0 (list_refused_text numbered finished) out.old result out.new }
{
    let at = put_refused(numbered, out);
    put_number(b" finished ", u64::from(finished), out, at)
}

fn put_output(output: Output, bytes: &[u8], out: &mut [u8]) -> usize
    ensures { Appends 0 (text_of output bytes.now) out.old result out.new }
{
    match output {
        Output::Ack => put_named(b"write ", prefix(ACK_SIZE, bytes), out),
        Output::Command(n) => put_named(b"write ", prefix(n, bytes), out),
        Output::Read(ms) => put_number(b"read ", u64::from(ms), out, 0),
        Output::Drain => text::put(b"drain", out, 0),
        Output::Pause(us) => put_number(b"pause ", u64::from(us), out, 0),
        Output::Done(n) => put_done(prefix(n, bytes), out),
        Output::Type1(n) => put_type1(prefix(n, bytes), out),
        Output::UidAndAts(n, uid, ats) => put_lengths(prefix(n, bytes), uid, ats, out),
        Output::Nothing => text::put(b"none", out, 0),
        Output::Failed(fault) => put_refused(Numbered::from(fault), out),
        Output::FailedAfter(fault, n) => put_list_refused(Numbered::from(fault), n, out),
        Output::Refused(refusal) => put_refused(Numbered::from(refusal), out),
    }
}

// Puts the text of an output, whose bytes stand at the start of `buffer`, at the start of `out`, and gives its length.
pub fn print(output: Output, buffer: &[u8; BUFFER_SIZE], out: &mut [u8; OUT_ROOM]) -> usize
    ensures { (placed result out.new ≡ placed_at 0 (text_of output buffer.now) out.old) × (result ≤ text_limit) × (length out.new ≡ out_room) }
{
    put_output(output, buffer, out)
}
