// The call or the event that a seed draws.
ghost use Rattle.std.specs.Prelude.{◌≤◌};

use super::draw;
use bench_input::slice;
use calls::start;
use calls::start::Numbers;
use engine::session::{Session, Step};
use exchange::Event;

// Room for a packet over the limit.
const PACKET_ROOM: usize = 1100;

// How many bytes an argument has: mostly few.
fn argument_length(seed: u64, k: u64) -> usize {
    let x = draw::drawn(seed, k);
    if x % 8 == 0 {
        (x / 8 % 1101) as usize
    } else {
        (x / 8 % 20) as usize
    }
}

// The number of a call, at times the one behind the last.
fn call_number(x: u64) -> u8 {
    draw::byte(x % (start::LAST_CALL as u64 + 2))
}

// A call's arguments that are numbers: mostly ones that calls take.
fn numbers(seed: u64) -> Numbers {
    let x = draw::drawn(seed, 27);
    let ms = if x % 8 == 0 { 100000 } else { 100 };
    Numbers {
        ms,
        word: (x / 8 % 65536) as u16,
        x: draw::byte(x / 16 % 3),
        y: draw::byte(x / 64 % 2),
        caller: draw::caller(draw::drawn(seed, 28)),
    }
}

// A call whose strings are any bytes, those of a target's start, of a jump, or of FeliCa blocks.
fn hand_call(session: Session, seed: u64, bytes: &[u8], buffer: &mut [u8]) -> Step {
    let number = call_number(draw::drawn(seed, 21));
    let numbers = numbers(seed);
    let rest = slice(bytes, 0, argument_length(seed, 20));
    let none = slice(bytes, 0, 0);
    let one = slice(bytes, 0, 1);
    let six = slice(bytes, 0, 6);
    let eight = slice(bytes, 0, 8);
    let ten = slice(bytes, 0, 10);
    let block = slice(bytes, 0, 16);
    let eighteen = slice(bytes, 0, 18);
    match draw::drawn(seed, 26) / 2 % 8 {
        0 => session.call(number, numbers, six, eighteen, ten, rest, buffer),
        1 => session.call(number, numbers, none, ten, rest, none, buffer),
        2 => session.call(number, numbers, eight, one, block, none, buffer),
        _ => session.call(number, numbers, rest, none, none, none, buffer),
    }
}

// A call whose first string is a bitrate.
fn hand_call_at_bitrate(session: Session, seed: u64, bytes: &[u8], buffer: &mut [u8]) -> Step {
    let number = call_number(draw::drawn(seed, 21));
    let numbers = numbers(seed);
    let rest = slice(bytes, 0, argument_length(seed, 20));
    let none = slice(bytes, 0, 0);
    match draw::drawn(seed, 26) / 2 % 8 {
        0 => session.call(number, numbers, b"848A", rest, rest, none, buffer),
        1 => session.call(number, numbers, b"106B", rest, rest, none, buffer),
        2 => session.call(number, numbers, b"106B", rest, rest, none, buffer),
        3 => session.call(number, numbers, b"212F", rest, rest, none, buffer),
        4 => session.call(number, numbers, b"424F", rest, rest, none, buffer),
        _ => session.call(number, numbers, b"106A", rest, rest, none, buffer),
    }
}

// The event: a packet in every other case.
fn drawn_event(x: u64) -> Event {
    match x % 12 {
        0 => Event::Ok,
        1 => Event::Bad,
        2 => Event::Time,
        3 => Event::Fail,
        4 => Event::Late,
        5 => Event::Slept,
        _ => Event::Packet,
    }
}

// How many bytes of the room a packet has: a whole frame, an ACK, an over-long packet, none, or any number.
fn length(x: u64, frame: usize) -> usize {
    match x % 8 {
        0 => 0,
        1 => 1024,
        2 => 1025,
        3 => (x / 8 % 1100) as usize,
        _ => frame,
    }
}

// A response to the code in a frame with `n` bytes behind the code.
fn response(code: u8, n: u8, status: u8) -> [u8; PACKET_ROOM] {
    let mut bytes = [0u8; PACKET_ROOM];
    let size = n % 32 + 3;
    let answer = code.wrapping_add(1);
    let sum = 0xD5u8.wrapping_add(answer).wrapping_add(status);
    let last = usize::from(size) + 5;
    bytes[2] = 0xFF;
    bytes[3] = size;
    bytes[4] = size.wrapping_neg();
    bytes[5] = 0xD5;
    bytes[6] = answer;
    bytes[7] = status;
    bytes[last] = sum.wrapping_neg();
    bytes
}

// Hands the session an event.
fn hand_event(session: Session, seed: u64, buffer: &mut [u8]) -> Step {
    let core = session.core;
    let exchange = core.exchange;
    let n = draw::byte(draw::drawn(seed, 22));
    let x = draw::drawn(seed, 23);
    let event = drawn_event(draw::drawn(seed, 24));
    let status = if x / 8 % 2 == 0 {
        0
    } else {
        draw::byte(x / 64)
    };
    let bytes = response(exchange.code, n, status);
    if x / 16 % 4 == 0 {
        let ack = [0, 0, 0xFF, 0, 0xFF, 0];
        session.event(event, &ack, buffer)
    } else {
        let frame = n % 32 + 10;
        session.event(event, slice(&bytes, 0, length(x, frame as usize)), buffer)
    }
}

// How many bytes of 1,024 are left before the last so many.
fn unused_bytes(size: usize) -> usize
    ensures { result ≤ 1024 }
{
    1024usize.saturating_sub(size)
}

// Hands the session a call or an event, with a buffer of so many bytes.
pub(crate) fn handed(session: Session, seed: u64, size: usize) -> Step {
    let mut buffer = [0u8; 1024];
    let start = unused_bytes(size);
    let bytes = response(draw::byte(draw::drawn(seed, 25)), 5, 7);
    if draw::is_call(seed) {
        if draw::drawn(seed, 26) % 2 == 0 {
            hand_call(session, seed, &bytes, &mut buffer[start..])
        } else {
            hand_call_at_bitrate(session, seed, &bytes, &mut buffer[start..])
        }
    } else {
        hand_event(session, seed, &mut buffer[start..])
    }
}
