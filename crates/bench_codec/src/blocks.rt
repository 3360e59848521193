// The lines of FeliCa blocks: requests and replies built, and a request taken apart.
#![tactic(auto, using(crate::proofs::Branches::block_texts))]

ghost use Rattle.std.specs.Prelude.{◌≡◌, ◌≤◌, length, get_or};
ghost use Rattle.errors.specs.Refusals.{returned};
ghost use Rattle.framing.specs.Build.{left};
ghost use Rattle.felica.specs.Packets.{built_of};
ghost use Rattle.felica.specs.Fields.{numbers_of};
ghost use Rattle.bench.specs.Texts.{Appends};
ghost use Rattle.bench_codec.specs.Codec.{line_limit, packet_room, word_text, block_fits, block_packet, block_line, PacketText, asked_text, request_text};

use super::{room, unreadable};
use bench::{hex, text};
use errors::Refusal;
use felica::reply::{build_read_reply, build_write_reply};
use felica::request::{
    Asked, Request, block_data, build_read_request, build_write_request, parse_request,
};

// The packets that are built.
#[derive(Clone, Copy, Debug, PartialEq, Eq)]
pub(crate) enum PacketKind {
    ReadRequest,
    WriteRequest,
    ReadReply,
    WriteReply,
}

// Room for a packet.
const PACKET_ROOM: usize = 128;

// What a packet is built of. The pair is the service code, high byte first, or both status flags; the blocks are their numbers or a
// reply's block data.
#[derive(Clone, Copy)]
struct Packet<'p> {
    kind: PacketKind,
    idm: &'p [u8],
    pair: [u8; 2],
    blocks: &'p [u8],
    bytes: &'p [u8],
}

impl Packet<'_> {
    fn build(self, packet: &mut [u8]) -> Result<usize, Refusal>
        ensures { left (returned result) packet.new ≡ built_of (block_fits self.entry.kind self.entry.idm.now (get_or self.entry.pair 0 0) self.entry.blocks.now self.entry.bytes.now) (block_packet self.entry.kind self.entry.idm.now (get_or self.entry.pair 0 0) (get_or self.entry.pair 1 0) self.entry.blocks.now self.entry.bytes.now) packet.old }
    {
        let [x, y] = self.pair;
        let service = u16::from_be_bytes([x, y]);
        match self.kind {
            PacketKind::ReadRequest => build_read_request(self.idm, service, self.blocks, packet),
            PacketKind::WriteRequest => {
                build_write_request(self.idm, service, self.blocks, self.bytes, packet)
            }
            PacketKind::ReadReply => build_read_reply(self.idm, x, y, self.blocks, packet),
            PacketKind::WriteReply => build_write_reply(self.idm, x, y, packet),
        }
    }
}

// A line that builds a packet, by its words: each stands for what the packet has under the same name.
#[derive(Clone, Copy)]
pub(crate) struct PacketLine<'l> {
    pub kind: PacketKind,
    pub idm: &'l [u8],
    pub pair: &'l [u8],
    pub blocks: &'l [u8],
    pub bytes: &'l [u8],
}

impl PacketLine<'_> {
    // The packet of the line, at the start of a buffer. A word that cannot be read is refused.
    fn build(self, packet: &mut [u8]) -> Result<usize, Refusal>
        requires { (length self.idm.now ≤ line_limit) × (length self.blocks.now ≤ line_limit) × (length self.bytes.now ≤ line_limit) × (packet_room ≤ length packet.old) }
        ensures { PacketText result packet.new (block_line self.entry.kind self.entry.idm.now self.entry.pair.now self.entry.blocks.now self.entry.bytes.now) }
    {
        let mut idm = room();
        let idm_len = hex::read(self.idm, &mut idm)?;
        if self.pair.len() != 4 {
            return Err(Refusal::BadArgument);
        }
        let mut pair = [0u8; 2];
        hex::read(self.pair, &mut pair)?;
        let mut blocks = room();
        let blocks_len = hex::read(self.blocks, &mut blocks)?;
        let mut bytes = room();
        let bytes_len = hex::read(self.bytes, &mut bytes)?;
        let fields = Packet {
            kind: self.kind,
            idm: &idm[..idm_len],
            pair,
            blocks: &blocks[..blocks_len],
            bytes: &bytes[..bytes_len],
        };
        fields.build(packet)
    }

    pub(crate) fn print(self, out: &mut [u8]) -> usize
        requires { (length self.idm.now ≤ line_limit) × (length self.blocks.now ≤ line_limit) × (length self.bytes.now ≤ line_limit) }
        ensures { Appends 0 (block_line self.entry.kind self.entry.idm.now self.entry.pair.now self.entry.blocks.now self.entry.bytes.now) out.old result out.new }
    {
        let mut packet = [0u8; PACKET_ROOM];
        let Ok(n) = self.build(&mut packet) else {
            return unreadable(out);
        };
        hex::put(&packet[..n], out, 0)
    }
}

// A space and bytes.
fn put_word(bytes: &[u8], out: &mut [u8], at: usize) -> usize
    ensures { Appends at (word_text bytes.now) out.old result out.new }
{
    let next = text::put(b" ", out, at);
    hex::put(bytes, out, next)
}

// The first `count` block numbers, all four where there are more.
fn put_numbers(asked: Asked, out: &mut [u8], at: usize) -> usize
    ensures { Appends at (word_text (numbers_of asked)) out.old result out.new }
{
    let numbers = asked.numbers;
    let count = usize::from(asked.count);
    if count < 4 {
        return put_word(&numbers[..count], out, at);
    }
    put_word(&numbers, out, at)
}

// IDm, service code and block numbers behind a name.
fn put_asked(name: &[u8], idm: &[u8], asked: Asked, out: &mut [u8]) -> usize
    ensures { Appends 0 (asked_text name.now idm.now asked.service (numbers_of asked)) out.old result out.new }
{
    let service = asked.service.to_be_bytes();
    let first = text::put(name, out, 0);
    let second = put_word(idm, out, first);
    let third = put_word(&service, out, second);
    put_numbers(asked, out, third)
}

// A request taken apart.
pub(crate) fn request(packet: &[u8], out: &mut [u8]) -> usize
    ensures { Appends 0 (request_text packet.now) out.old result out.new }
{
    match parse_request(packet) {
        Some(Request::Read(asked)) => put_asked(b"read", felica::idm(packet), asked, out),
        Some(Request::Write(asked)) => {
            let at = put_asked(b"write", felica::idm(packet), asked, out);
            put_word(block_data(packet, asked.count), out, at)
        }
        None => text::put(b"none", out, 0),
    }
}
