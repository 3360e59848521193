// Sums of bytes modulo 256, in a byte that wraps, and the checksums that are made of them.
#![tactic(auto, using(errors::specs::Rules::picks, crate::specs::Sums::wraps_next), unfolding(errors::specs::Choice::pick, crate::specs::Frames::checksum_of, crate::specs::Checks::matches, crate::specs::Frames::total))]

ghost use Rattle.std.specs.Prelude.{◌≡◌, ◌-◌, ◌%◌, ◌≤◌, [], ◌∷◌, length, drop};
ghost use Rattle.framing.specs.Frames.{total, checksum_of};
ghost use Rattle.framing.specs.Checks.{matches};
ghost use Rattle.framing.specs.Names.{piece_size};

// The bytes that the compiler adds at a time.
const PIECE_SIZE: usize = 32;

// The sum of the bytes, one after the other. The compiler adds 32 at a time, and singly what is left over.
fn plain_sum(bytes: &[u8]) -> u8
    ensures { result ≡ total bytes.now % 256 }
{
    let mut sum: u8 = 0;
    for byte in bytes {
        sum = sum.wrapping_add(*byte);
    }
    sum
}

// Kept: a slice of 32 bytes, since taking an array off the end (`last_chunk`) costs each sum two instructions (docs/PERFORMANCE.md).
// The sum of the last n of 32 bytes. With zeros behind them they are 32 again, so that none is left over.
fn sum_of_last(bytes: &[u8], n: usize) -> u8
    requires { (length bytes.now ≡ piece_size) × (n ≤ piece_size) }
    ensures { result ≡ total (drop (piece_size - n) bytes.now) % 256 }
{
    let mut padded = [0; 2 * PIECE_SIZE];
    octets::copy(bytes, &mut padded);
    let from = PIECE_SIZE - n;
    plain_sum(&padded[from..from + PIECE_SIZE])
}

// The sum of the bytes: of the pieces of 32, and of the fewer than 32 bytes behind them.
fn sum(bytes: &[u8]) -> u8
    ensures { result ≡ total bytes.now % 256 }
{
    let len = bytes.len();
    if len < PIECE_SIZE {
        return plain_sum(bytes);
    }
    let whole = len >> 5 << 5;
    let pieces = plain_sum(&bytes[0..whole]);
    let rest = sum_of_last(&bytes[len - PIECE_SIZE..], len - whole);
    pieces.wrapping_add(rest)
}

// The byte that brings the sum of the bytes to a multiple of 256.
pub fn checksum(bytes: &[u8]) -> u8
    ensures { result ≡ checksum_of bytes.now }
{
    0u8.wrapping_sub(sum(bytes))
}

pub fn length_checksum(len: u8) -> u8
    ensures { result ≡ checksum_of (len ∷ []) }
{
    0u8.wrapping_sub(len)
}

// Kept: beside `length_checksum`, since document 01's request N3 names both, each with its own wrapping sum (docs/requests/N3.md).
// The checksum of two length bytes.
pub fn pair_checksum(first: u8, second: u8) -> u8
    ensures { result ≡ checksum_of (first ∷ second ∷ []) }
{
    0u8.wrapping_sub(first.wrapping_add(second))
}

pub fn checksum_matches(bytes: &[u8], byte: u8) -> bool
    ensures { result ≡ matches bytes.now byte }
{
    sum(bytes).wrapping_add(byte) == 0
}

// The same of the length bytes, one or two.
pub fn length_matches(bytes: &[u8], byte: u8) -> bool
    ensures { result ≡ matches bytes.now byte }
{
    plain_sum(bytes).wrapping_add(byte) == 0
}
