// The arguments of a line: a word, as a number or as bytes.
#![tactic(auto, using(errors::specs::Rules::equals), unfolding(errors::specs::Choice::pick, crate::specs::Arguments::byte_arg, crate::specs::Arguments::flag_arg, crate::specs::Arguments::hex_arg, crate::specs::Arguments::hex_or_none, crate::specs::Arguments::is_none, crate::specs::Arguments::ms_arg, crate::specs::Arguments::name_arg, crate::specs::Arguments::present_arg, crate::specs::Arguments::text_arg, crate::specs::Arguments::wait_arg, crate::specs::Arguments::whole_arg, crate::specs::Arguments::word_arg))]

ghost use Rattle.std.specs.Prelude.{◌≡◌, List, ℕ, ◌+◌, ◌*◌, ◌≤◌, ◌<◌, length};
ghost use Rattle.bench_input.specs.Arguments.{Read, pairs_arg, byte_arg, flag_arg, word_arg, ms_arg, hex_arg, whole_arg, text_arg, is_none, hex_or_none, present_arg, name_arg, wait_arg};
ghost use Rattle.bench_input.specs.Readings.{given, wait_in, hex_in, Behind};

use bench::{hex, number};

// So many pairs.
fn read_pairs<const N: usize>(word: &[u8]) -> Option<[u8; N]>
    requires { N ≤ 2 }
    ensures { (f : List ℕ → Read) → given result f ≡ pairs_arg N word.now f }
{
    if word.len() != 2 * N {
        return None;
    }
    let mut pairs = [0u8; N];
    let Ok(_) = hex::read(word, &mut pairs) else {
        return None;
    };
    Some(pairs)
}

// BYTE: one pair.
pub(crate) fn read_byte(word: &[u8]) -> Option<u8>
    ensures { (f : ℕ → Read) → given result f ≡ byte_arg word.now f }
{
    let [byte] = read_pairs::<1>(word)?;
    Some(byte)
}

// WORD: two pairs, high byte first.
pub(crate) fn read_word(word: &[u8]) -> Option<u16>
    ensures { (f : ℕ → Read) → given result f ≡ word_arg word.now f }
{
    let pairs = read_pairs::<2>(word)?;
    Some(u16::from_be_bytes(pairs))
}

// MS: a number.
pub(crate) fn read_ms(word: &[u8]) -> Option<u32>
    ensures { (f : ℕ → Read) → given result f ≡ ms_arg word.now f }
{
    number::read(word)
}

// HEX: puts its bytes into the buffer from a place on, and gives the place behind them.
// Kept: the room is of the word and the buffer's place together: a slice from the place on would lose what stands before it.
pub(crate) fn read_hex(word: &[u8], bytes: &mut [u8], at: usize) -> Option<usize>
    requires { at + length word.now ≤ length bytes.old }
    ensures by_index { (f : List ℕ → Read) → hex_in at result bytes.new f ≡ hex_arg word.now f }
    ensures behind { Behind at result (length word.now) bytes.old bytes.new }
{
    let Ok(n) = hex::read(word, &mut bytes[at..]) else {
        return None;
    };
    Some(at + n)
}

// HEX of whole groups of so many bytes, from a place on.
pub(crate) fn read_whole(word: &[u8], bytes: &mut [u8], at: usize, size: usize) -> Option<usize>
    requires { (0 < size) × (at + length word.now ≤ length bytes.old) }
    ensures by_index { (f : List ℕ → Read) → hex_in at result bytes.new f ≡ whole_arg size word.now f }
    ensures behind { Behind at result (length word.now) bytes.old bytes.new }
{
    let end = read_hex(word, bytes, at)?;
    if (end - at) % size == 0 {
        return Some(end);
    }
    None
}

// BITRATE, from a place on.
pub(crate) fn read_text(word: &[u8], bytes: &mut [u8], at: usize) -> Option<usize>
    requires { at + length word.now ≤ length bytes.old }
    ensures by_index { (f : List ℕ → Read) → hex_in at result bytes.new f ≡ text_arg word.now f }
    ensures behind { Behind at result (length word.now) bytes.old bytes.new }
{
    if word.is_empty() {
        return None;
    }
    if word == b"-".as_slice() {
        return Some(at);
    }
    octets::copy(word, &mut bytes[at..]);
    Some(at + word.len())
}

// Whether the argument is absent.
fn is_none(word: &[u8]) -> bool
    ensures { result ≡ is_none word.now }
{
    word == b"none".as_slice()
}

// HEX, or `none` for no bytes, from a place on.
pub(crate) fn read_hex_or_none(word: &[u8], bytes: &mut [u8], at: usize) -> Option<usize>
    requires { at + length word.now ≤ length bytes.old }
    ensures by_index { (f : List ℕ → Read) → hex_in at result bytes.new f ≡ hex_or_none word.now f }
    ensures behind { Behind at result (length word.now) bytes.old bytes.new }
{
    if is_none(word) {
        return Some(at);
    }
    read_hex(word, bytes, at)
}

// 00 or 01.
pub(crate) fn read_flag(word: &[u8]) -> Option<u8>
    ensures { (f : ℕ → Read) → given result f ≡ flag_arg word.now f }
{
    let flag = read_byte(word)?;
    if 1 < flag {
        return None;
    }
    Some(flag)
}

// This word: 1.
pub(crate) fn read_name(word: &[u8], name: &[u8]) -> Option<u8>
    ensures { (f : ℕ → Read) → given result f ≡ name_arg name.now word.now f }
{
    if word == name {
        return Some(1);
    }
    None
}

// Whether a HEX is present: 1 or 0.
pub(crate) fn read_presence(word: &[u8]) -> Option<u8>
    ensures { (f : ℕ → Read) → given result f ≡ present_arg word.now f }
{
    if is_none(word) {
        return Some(0);
    }
    if hex::is_hex(word) {
        return Some(1);
    }
    None
}

// MS of at most 65535, or `none`.
pub(crate) fn read_wait(word: &[u8]) -> Option<Option<u16>>
    ensures { (f : ℕ → ℕ → Read) → wait_in result f ≡ wait_arg word.now f }
{
    if is_none(word) {
        return Some(None);
    }
    let Ok(ms) = u16::try_from(read_ms(word)?) else {
        return None;
    };
    Some(Some(ms))
}
