// Replies to Read and Write Without Encryption. `flag1` and `flag2` are their status flags.
#![tactic(auto, using(crate::specs::Rules::bounds, crate::specs::Laid::blocks_no_room), unfolding(errors::specs::Choice::pick, crate::specs::Fields::has_blocks_of, crate::specs::Fields::is_read_reply_of, crate::specs::Fields::is_reply_of, crate::specs::Fields::is_write_reply_of, crate::specs::Fields::reads_blocks_of, crate::specs::Fields::reply_fields_of, crate::specs::Packets::are_blocks_of, crate::specs::Packets::built_of, crate::specs::Packets::read_reply_fits, crate::specs::Packets::reply_packet, framing::specs::Build::put_frame, errors::specs::Refusals::returned))]

ghost use Rattle.std.specs.Prelude.{◌≡◌, [], ◌∷◌, ◌++◌, ◌*◌, ◌≤◌, length};
ghost use Rattle.errors.specs.Refusals.{returned};
ghost use Rattle.framing.specs.Build.{left, put_frame};
ghost use Rattle.felica.specs.Names.{block_size, most_blocks};
ghost use Rattle.felica.specs.Packets.{reply_packet, read_reply_of, write_reply_of, are_blocks_of, read_reply_fits, built_of, idm_fits};
ghost use Rattle.felica.specs.Fields.{reply_fields_in, reply_fields_of, is_reply_of, has_blocks_of, is_read_reply_of, is_write_reply_of, reads_blocks_of, blocks_in};

use super::{
    BLOCK_SIZE, CODE_OFFSET, IDM_SIZE, MOST_BLOCKS, READ_REPLY_CODE, WRITE_REPLY_CODE, behind,
    byte_at, put_part,
};
use errors::Refusal;

// Where the flags stand, where they end and the number of blocks stands, and where block data starts.
pub(crate) const FLAG1_OFFSET: usize = 10;

pub(crate) const FLAG2_OFFSET: usize = 11;

pub(crate) const FLAGS_END: usize = 12;

pub const BLOCKS_OFFSET: usize = 13;

// A reply taken apart: its flags. Its IDm and a read's block data are parts of the packet: `idm`, `blocks_read`.
#[derive(Clone, Copy, Debug, PartialEq, Eq)]
pub enum Reply {
    Read(u8, u8),
    Write(u8, u8),
}

// Whether there are 16 bytes for each of 1 to 4 blocks.
fn are_blocks(n: usize) -> bool
    ensures { result ≡ are_blocks_of n }
{
    n % BLOCK_SIZE == 0 && n >= BLOCK_SIZE && n <= BLOCK_SIZE * MOST_BLOCKS
}

// The bytes of a reply up to its flags.
// Kept: the two status flags are two numbers, as in `reply_packet` and with every caller; a type of their own would say no more.
fn head(len: u8, code: u8, idm: &[u8; IDM_SIZE], flag1: u8, flag2: u8) -> [u8; FLAGS_END]
    ensures { result ≡ len ∷ code ∷ idm.now ++ (flag1 ∷ flag2 ∷ []) }
{
    [
        len, code, idm[0], idm[1], idm[2], idm[3], idm[4], idm[5], idm[6], idm[7], flag1, flag2,
    ]
}

// Writes a reply: what stands behind its flags is the number of blocks and their data, or nothing.
// Kept: a struct of these would be built by the callers and opened here, which is no plainer.
fn put_reply(
    code: u8,
    idm: &[u8; IDM_SIZE],
    flag1: u8,
    flag2: u8,
    number: &[u8],
    bytes: &[u8],
    buffer: &mut [u8],
) -> Result<usize, Refusal>
    requires { (length number.now ≤ 1) × (length bytes.now ≤ block_size * most_blocks) }
    ensures { left (returned result) buffer.new ≡ put_frame (reply_packet code idm.now flag1 flag2 (number.now ++ bytes.now)) buffer.old }
{
    let at = FLAGS_END + number.len();
    let len = at + bytes.len();
    if buffer.len() < len {
        return Err(Refusal::ShortBuffer);
    }
    let start = head(len as u8, code, idm, flag1, flag2);
    put_part(&start, buffer, 0);
    put_part(number, buffer, FLAGS_END);
    put_part(bytes, buffer, at);
    Ok(len)
}

// The reply to a read; 4 where the IDm has not 8 bytes, or there is not block data of 1 to 4 blocks where flag 1 is 0 and else none,
// then 2, and nothing is written.
pub fn build_read_reply(
    idm: &[u8],
    flag1: u8,
    flag2: u8,
    bytes: &[u8],
    buffer: &mut [u8],
) -> Result<usize, Refusal>
    ensures { left (returned result) buffer.new ≡ built_of (read_reply_fits idm.now flag1 bytes.now) (read_reply_of idm.now flag1 flag2 bytes.now) buffer.old }
{
    let Some(idm) = idm.as_array::<IDM_SIZE>() else {
        return Err(Refusal::BadArgument);
    };
    if flag1 == 0 {
        if !are_blocks(bytes.len()) {
            return Err(Refusal::BadArgument);
        }
        let number = [(bytes.len() / BLOCK_SIZE) as u8];
        return put_reply(READ_REPLY_CODE, idm, flag1, flag2, &number, bytes, buffer);
    }
    if !bytes.is_empty() {
        return Err(Refusal::BadArgument);
    }
    put_reply(READ_REPLY_CODE, idm, flag1, flag2, &[], &[], buffer)
}

// The reply to a write; 4 where the IDm has not 8 bytes.
pub fn build_write_reply(
    idm: &[u8],
    flag1: u8,
    flag2: u8,
    buffer: &mut [u8],
) -> Result<usize, Refusal>
    ensures { left (returned result) buffer.new ≡ built_of (idm_fits idm.now) (write_reply_of idm.now flag1 flag2) buffer.old }
{
    let Some(idm) = idm.as_array::<IDM_SIZE>() else {
        return Err(Refusal::BadArgument);
    };
    put_reply(WRITE_REPLY_CODE, idm, flag1, flag2, &[], &[], buffer)
}

// Whether the packet has its length, the flags and this code.
fn is_reply(code: u8, packet: &[u8]) -> bool
    ensures { result ≡ is_reply_of code packet.now }
{
    packet.len() >= FLAGS_END
        && usize::from(byte_at(packet, 0)) == packet.len()
        && byte_at(packet, CODE_OFFSET) == code
}

// Whether n blocks stand behind the flags, and their number.
pub(crate) fn has_blocks(n: u8, packet: &[u8]) -> bool
    ensures { result ≡ has_blocks_of n packet.now }
{
    byte_at(packet, FLAGS_END) == n && packet.len() == BLOCKS_OFFSET + BLOCK_SIZE * usize::from(n)
}

// Whether 1 to 4 blocks stand behind the flags where flag 1 is 0, and else nothing.
fn reads_blocks(packet: &[u8]) -> bool
    ensures { result ≡ reads_blocks_of packet.now }
{
    if byte_at(packet, FLAG1_OFFSET) == 0 {
        let n = byte_at(packet, FLAGS_END);
        n >= 1 && n <= MOST_BLOCKS as u8 && has_blocks(n, packet)
    } else {
        packet.len() == FLAGS_END
    }
}

fn is_read_reply(packet: &[u8]) -> bool
    ensures { result ≡ is_read_reply_of packet.now }
{
    is_reply(READ_REPLY_CODE, packet) && reads_blocks(packet)
}

fn is_write_reply(packet: &[u8]) -> bool
    ensures { result ≡ is_write_reply_of packet.now }
{
    is_reply(WRITE_REPLY_CODE, packet) && packet.len() == FLAGS_END
}

// A reply taken apart; other bytes give none.
pub fn parse_reply(packet: &[u8]) -> Option<Reply>
    ensures { reply_fields_in result packet.now ≡ reply_fields_of packet.now }
{
    let flag1 = byte_at(packet, FLAG1_OFFSET);
    let flag2 = byte_at(packet, FLAG2_OFFSET);
    if is_read_reply(packet) {
        return Some(Reply::Read(flag1, flag2));
    }
    if is_write_reply(packet) {
        return Some(Reply::Write(flag1, flag2));
    }
    None
}

// What stands behind the flags and the number of blocks: a read's block data.
pub fn blocks_read(packet: &[u8]) -> &[u8]
    ensures { result.now ≡ blocks_in packet.now }
{
    behind(packet, BLOCKS_OFFSET)
}
