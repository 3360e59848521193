// Requests: Read and Write Without Encryption.
#![tactic(auto, using(crate::specs::Rules::bounds, crate::specs::Taken::asks_list, crate::specs::Lists::list_put, crate::specs::Laid::request_no_room), unfolding(errors::specs::Choice::pick, crate::specs::Fields::asks_blocks, crate::specs::Fields::is_block_list_of, crate::specs::Fields::is_request_of, crate::specs::Fields::parsed_request, crate::specs::Packets::block_list, crate::specs::Packets::built_of, crate::specs::Packets::request, crate::specs::Packets::request_fits, crate::specs::Packets::write_fits_of, framing::specs::Build::put_frame, errors::specs::Refusals::returned))]

ghost use Rattle.std.specs.Prelude.{◌≡◌, Bool, MatchOption, ◌++◌, ◌+◌, ◌*◌, ◌≤◌, length, take, drop};
ghost use Rattle.errors.specs.Refusals.{returned};
ghost use Rattle.framing.specs.Build.{left, put_frame};
ghost use Rattle.felica.specs.Names.{block_size, most_blocks, element_size, request_head};
ghost use Rattle.felica.specs.Packets.{request, block_list, read_request_of, write_request_of, request_fits, write_fits_of, built_of};
ghost use Rattle.felica.specs.Fields.{is_request_of, asks_blocks, is_block_list_of, count_in, block_data_in, four_in, asked_in, parsed_request};

use super::{
    BLOCK_SIZE, CODE_OFFSET, IDM_SIZE, MOST_BLOCKS, READ_CODE, WRITE_CODE, behind, byte_at,
    put_part,
};
use errors::Refusal;

// The bytes of a block list element, and the first of them, of the first service.
const ELEMENT_SIZE: usize = 2;

const ELEMENT: u8 = 0x80;

// Where the number of services, the service code and the number of blocks stand, and the bytes of a request up to its block list.
const SERVICES_OFFSET: usize = 10;

const ONE_SERVICE: u8 = 0x01;

const SERVICE_LOW_OFFSET: usize = 11;

const SERVICE_HIGH_OFFSET: usize = 12;

pub(crate) const COUNT_OFFSET: usize = 13;

const REQUEST_HEAD: usize = 14;

// What a request asks for: the service code, the number of blocks, 1 to 4, and their block numbers, 0 behind them.
#[derive(Clone, Copy, Debug, PartialEq, Eq)]
pub struct Asked {
    pub service: u16,
    pub count: u8,
    pub numbers: [u8; MOST_BLOCKS],
}

// A request taken apart. Its IDm and a write's block data are parts of the packet: `idm`, `block_data`.
#[derive(Clone, Copy, Debug, PartialEq, Eq)]
pub enum Request {
    Read(Asked),
    Write(Asked),
}

// The card's IDm, where there is a request for it and these blocks.
fn fitting<'i>(idm: &'i [u8], blocks: &[u8]) -> Option<&'i [u8; IDM_SIZE]>
    ensures { MatchOption result (request_fits idm.now blocks.now ≡ Bool.false) (λ card. (request_fits idm.now blocks.now ≡ Bool.true) × (card.now ≡ idm.now)) }
{
    if blocks.is_empty() || blocks.len() > MOST_BLOCKS {
        return None;
    }
    idm.as_array::<IDM_SIZE>()
}

// Writes the request at the buffer's start; the rest of the buffer keeps its bytes.
// Kept: a struct of these would be built by the callers and opened here, which is no plainer.
fn put_request(
    code: u8,
    idm: &[u8; IDM_SIZE],
    service: u16,
    blocks: &[u8],
    bytes: &[u8],
    buffer: &mut [u8],
) -> Result<usize, Refusal>
    requires { (length blocks.now ≤ most_blocks) × (length bytes.now ≤ block_size * most_blocks) }
    ensures { left (returned result) buffer.new ≡ put_frame (request code idm.now service blocks.now bytes.now) buffer.old }
{
    let n = blocks.len();
    let at = REQUEST_HEAD + ELEMENT_SIZE * n;
    let len = at + bytes.len();
    if buffer.len() < len {
        return Err(Refusal::ShortBuffer);
    }
    let [low, high] = service.to_le_bytes();
    let head = [
        len as u8,
        code,
        idm[0],
        idm[1],
        idm[2],
        idm[3],
        idm[4],
        idm[5],
        idm[6],
        idm[7],
        ONE_SERVICE,
        low,
        high,
        n as u8,
    ];
    put_part(&head, buffer, 0);
    put_list(blocks, buffer);
    put_part(bytes, buffer, at);
    Ok(len)
}

// Writes the block list behind the head of a request.
fn put_list(blocks: &[u8], buffer: &mut [u8])
    requires { (length blocks.now ≤ most_blocks) × (request_head + element_size * length blocks.now ≤ length buffer.old) }
    ensures { buffer.new ≡ take request_head buffer.old ++ (block_list blocks.now ++ drop (request_head + element_size * length blocks.now) buffer.old) }
{
    let list = [
        ELEMENT,
        byte_at(blocks, 0),
        ELEMENT,
        byte_at(blocks, 1),
        ELEMENT,
        byte_at(blocks, 2),
        ELEMENT,
        byte_at(blocks, 3),
    ];
    put_part(&list[..ELEMENT_SIZE * blocks.len()], buffer, REQUEST_HEAD);
}

// Read Without Encryption of these blocks; 4 where the IDm has not 8 bytes or there are not 1 to 4 blocks, then 2, and nothing is written.
pub fn build_read_request(
    idm: &[u8],
    service: u16,
    blocks: &[u8],
    buffer: &mut [u8],
) -> Result<usize, Refusal>
    ensures { left (returned result) buffer.new ≡ built_of (request_fits idm.now blocks.now) (read_request_of idm.now service blocks.now) buffer.old }
{
    let Some(idm) = fitting(idm, blocks) else {
        return Err(Refusal::BadArgument);
    };
    put_request(READ_CODE, idm, service, blocks, &[], buffer)
}

// Write Without Encryption of these blocks; 4 too where the data has not 16 bytes a block.
pub fn build_write_request(
    idm: &[u8],
    service: u16,
    blocks: &[u8],
    bytes: &[u8],
    buffer: &mut [u8],
) -> Result<usize, Refusal>
    ensures { left (returned result) buffer.new ≡ built_of (write_fits_of idm.now blocks.now bytes.now) (write_request_of idm.now service blocks.now bytes.now) buffer.old }
{
    let Some(idm) = fitting(idm, blocks) else {
        return Err(Refusal::BadArgument);
    };
    if bytes.len() != BLOCK_SIZE * blocks.len() {
        return Err(Refusal::BadArgument);
    }
    put_request(WRITE_CODE, idm, service, blocks, bytes, buffer)
}

// Whether these are two-byte block list elements of the first service.
fn is_block_list(list: &[u8]) -> bool
    ensures { result ≡ is_block_list_of list.now }
{
    let mut left = list;
    // Kept: goes down the list by a slice pattern; nothing is counted.
    while let [ELEMENT, _, behind @ ..] = left {
        left = behind;
    }
    left.is_empty()
}

// Whether 1 to 4 blocks are asked for with `size` bytes of data each, and nothing stands behind them.
fn asks_blocks(size: usize, packet: &[u8]) -> bool
    requires { size ≤ block_size }
    ensures { result ≡ asks_blocks size packet.now }
{
    let n = usize::from(byte_at(packet, COUNT_OFFSET));
    n >= 1
        && n <= MOST_BLOCKS
        && packet.len() == REQUEST_HEAD + (ELEMENT_SIZE + size) * n
        && is_block_list(&packet[REQUEST_HEAD..REQUEST_HEAD + ELEMENT_SIZE * n])
}

// Whether the packet is a request of a code with `size` bytes of data a block.
fn is_request(code: u8, size: usize, packet: &[u8]) -> bool
    requires { size ≤ block_size }
    ensures { result ≡ is_request_of code size packet.now }
{
    usize::from(byte_at(packet, 0)) == packet.len()
        && byte_at(packet, CODE_OFFSET) == code
        && byte_at(packet, SERVICES_OFFSET) == ONE_SERVICE
        && asks_blocks(size, packet)
}

// A service code, low byte first.
fn service_code(low: u8, high: u8) -> u16
    ensures { result ≡ low + 256 * high }
{
    u16::from_le_bytes([low, high])
}

// The block numbers of a list's first four elements, 0 where it has fewer.
fn block_numbers(list: &[u8]) -> [u8; MOST_BLOCKS]
    ensures { result ≡ four_in list.now }
{
    [
        byte_at(list, 1),
        byte_at(list, 3),
        byte_at(list, 5),
        byte_at(list, 7),
    ]
}

// What a request asks for.
fn asked_for(packet: &[u8]) -> Asked
    requires { request_head + element_size * count_in packet.now ≤ length packet.now }
    ensures { result ≡ asked_in packet.now }
{
    let count = byte_at(packet, COUNT_OFFSET);
    let end = REQUEST_HEAD + ELEMENT_SIZE * usize::from(count);
    Asked {
        service: service_code(
            byte_at(packet, SERVICE_LOW_OFFSET),
            byte_at(packet, SERVICE_HIGH_OFFSET),
        ),
        count,
        numbers: block_numbers(&packet[REQUEST_HEAD..end]),
    }
}

// A request taken apart; other bytes give none.
pub fn parse_request(packet: &[u8]) -> Option<Request>
    ensures { result ≡ parsed_request packet.now }
{
    if is_request(READ_CODE, 0, packet) {
        return Some(Request::Read(asked_for(packet)));
    }
    if is_request(WRITE_CODE, BLOCK_SIZE, packet) {
        return Some(Request::Write(asked_for(packet)));
    }
    None
}

// What stands behind the list of `count` blocks: a write's block data.
pub fn block_data(packet: &[u8], count: u8) -> &[u8]
    ensures { result.now ≡ block_data_in count packet.now }
{
    behind(packet, REQUEST_HEAD + ELEMENT_SIZE * usize::from(count))
}
