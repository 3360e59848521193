// FeliCa's commands without encryption (JIS X 6319-4), for one service and 1 to 4 blocks: requests and replies built and taken apart.
#![tactic(auto)]

pub mod check;
pub mod reply;
pub mod request;

ghost use Rattle.std.specs.Prelude.{◌≡◌, ◌++◌, ◌+◌, ◌≤◌, length, take, drop, get_or};
ghost use Rattle.felica.specs.Fields.{idm_in};

// The codes.
pub const READ_CODE: u8 = 0x06;

pub const READ_REPLY_CODE: u8 = 0x07;

pub const WRITE_CODE: u8 = 0x08;

pub const WRITE_REPLY_CODE: u8 = 0x09;

// The bytes of an IDm and of a block, and the most blocks of a request.
pub const IDM_SIZE: usize = 8;

pub const BLOCK_SIZE: usize = 16;

pub const MOST_BLOCKS: usize = 4;

// Where the code and the IDm stand in a packet. LEN stands at 0.
const CODE_OFFSET: usize = 1;

const IDM_OFFSET: usize = 2;

// The byte at a place, 0 where there is none.
fn byte_at(bytes: &[u8], at: usize) -> u8
    ensures { result ≡ get_or bytes.now at 0 }
{
    bytes.get(at).copied().unwrap_or(0)
}

// Copies bytes into the buffer from a place on.
fn put_part(part: &[u8], buffer: &mut [u8], at: usize)
    requires { at + length part.now ≤ length buffer.old }
    ensures { buffer.new ≡ take at buffer.old ++ (part.now ++ drop (at + length part.now) buffer.old) }
{
    octets::copy(part, &mut buffer[at..]);
}

// What stands in a packet from a place on.
#[tactic(auto, using(crate::specs::Lists::rest_from))]
fn behind(packet: &[u8], at: usize) -> &[u8]
    ensures { result.now ≡ drop at packet.now }
{
    &packet[packet.len().min(at)..]
}

// The IDm of a packet: bytes 2 to 9, as far as there are any.
#[tactic(auto, using(crate::specs::Lists::idm_cut))]
pub fn idm(packet: &[u8]) -> &[u8]
    ensures { result.now ≡ idm_in packet.now }
{
    let n = packet.len();
    &packet[n.min(IDM_OFFSET)..n.min(IDM_OFFSET + IDM_SIZE)]
}
