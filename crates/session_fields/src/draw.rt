// Numbers drawn from a seed, and sessions made of them.
use calls::{LAST_KIND, LAST_STAGE};
use engine::books::{BOOKS_SIZE, CALLER_COUNT};
use engine::call::{Call, PAUSE_PHASE};
use engine::running::{Core, FOUND_LIMIT};
use engine::session::Session;
use exchange::Exchange;
use stages::put::DATA_LIMIT;

// The next seed: a linear congruential generator.
pub(crate) fn next_seed(seed: u64) -> u64 {
    (seed % 2147483648 * 1103515245 + 12345) % 2147483648
}

fn mixed(x: u64) -> u64 {
    let y = x % 2147483648 * 48271 % 2147483647;
    y ^ (y / 32768)
}

// The number k of a seed.
pub(crate) fn drawn(seed: u64, k: u64) -> u64 {
    mixed(mixed(mixed(seed % 2147483648 + k % 64 * 7919)))
}

pub(crate) fn byte(x: u64) -> u8 {
    (x % 256) as u8
}

// Mostly at most `last`, else any byte.
fn small(x: u64, last: u8) -> u8 {
    if x / 256 % 16 == 0 {
        byte(x)
    } else {
        byte(x % (u64::from(last) + 1))
    }
}

// Mostly at most `last`, else any number up to 65,535, or the greatest of all.
fn filled(x: u64, last: u16) -> usize {
    match x / 65536 % 32 {
        0 => (x % 65536) as usize,
        1 => usize::MAX,
        _ => (x % 65536 % (u64::from(last) + 1)) as usize,
    }
}

fn any_u32(x: u64) -> u32 {
    if x % 8 == 0 {
        u32::MAX
    } else {
        (x % 2147483648) as u32
    }
}

// Whether a session is handed a call, not an event.
pub(crate) fn is_call(seed: u64) -> bool {
    drawn(seed, 0) % 3 == 0
}

// What runs: no call in most sessions that are handed one, and in few others.
fn running_kind(seed: u64) -> u8 {
    let x = drawn(seed, 1);
    if is_call(seed) {
        if x / 4096 % 8 == 0 {
            small(x, LAST_KIND)
        } else {
            0
        }
    } else {
        small(x, LAST_KIND)
    }
}

// What is awaited: an exchange in more than half.
fn awaited(x: u64) -> u8 {
    if x / 4096 % 2 == 0 {
        0
    } else {
        small(x, PAUSE_PHASE)
    }
}

fn drawn_call(seed: u64) -> Call {
    Call {
        kind: running_kind(seed),
        stage: small(drawn(seed, 2), LAST_STAGE),
        cursor: small(drawn(seed, 2) / 65536, 16),
        phase: awaited(drawn(seed, 3)),
    }
}

fn exchange(seed: u64) -> Exchange {
    Exchange {
        phase: small(drawn(seed, 4), Exchange::DRAINING_PHASE),
        code: byte(drawn(seed, 5)),
        clock: any_u32(drawn(seed, 6)),
    }
}

fn core(seed: u64) -> Core {
    let exchange = exchange(seed);
    let call = drawn_call(seed);
    Core {
        command: filled(drawn(seed, 7), DATA_LIMIT as u16),
        found: filled(drawn(seed, 8), FOUND_LIMIT as u16),
        exchange,
        call,
    }
}

// 0 up to a place of 32, else 1; out of range in few. A session is open in most, and its mode is either.
fn flag(x: u64, last_zero: u64) -> u8 {
    match x % 32 {
        0 => 2,
        1 => 255,
        place => u8::from(place > last_zero),
    }
}

// One of the eight in most, out of range in few.
pub(crate) fn caller(x: u64) -> u8 {
    match x % 32 {
        0 => 8,
        1 => 255,
        _ => (x / 32 % 8) as u8,
    }
}

fn books(seed: u64) -> [u8; BOOKS_SIZE] {
    [
        flag(drawn(seed, 9), 9),
        flag(drawn(seed, 14), 16),
        caller(drawn(seed, 15)),
    ]
}

// A session with any fields, most of them in their ranges.
pub(crate) fn session(seed: u64) -> Session {
    let core = core(seed);
    let books = books(seed);
    let command = byte(drawn(seed, 11));
    let found = byte(drawn(seed, 12));
    let frames = any_u32(drawn(seed, 10));
    Session {
        command: [command; DATA_LIMIT],
        found: [found; FOUND_LIMIT],
        frames: [frames; CALLER_COUNT],
        books,
        core,
    }
}

// The buffer's length.
pub(crate) fn size(seed: u64) -> usize {
    match drawn(seed, 13) % 8 {
        0 => 0,
        1 => 1,
        2 => 1023,
        _ => 1024,
    }
}
