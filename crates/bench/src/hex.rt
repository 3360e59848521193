// HEX: pairs of hex digits of either case, printed in upper case. `-` stands for no bytes.
#![tactic(auto, using(framing::specs::Rules::steps, errors::specs::Rules::equals), unfolding(errors::specs::Choice::pick, errors::specs::Choice::in_range, crate::specs::Hex::value_of, crate::specs::Hex::digit_of, crate::specs::Hex::is_hex_of, errors::specs::Refusals::returned))]

ghost use Rattle.std.specs.Prelude.{◌≡◌, Bool, ◌+◌, ◌*◌, ◌/◌, ◌≤◌, ◌<◌, length};
ghost use Rattle.errors.specs.Refusals.{returned};
ghost use Rattle.bench.specs.Texts.{over, placed, put_at};
ghost use Rattle.bench.specs.Hex.{value_of, all_hex_digits, is_hex_of, pairs_of, read_of, digit_of, digits_of_lem, hex_of};
ghost use Rattle.framing.specs.Build.{left};

use super::text;
use errors::Refusal;

// Kept: 16 and no Option, since `decode` reads digits that were tested, and would have to say what none is worth.
// The value of a hex digit; 16 where the byte is none.
fn value(digit: u8) -> u8
    ensures { (result ≡ value_of digit) × (result ≤ 16) }
{
    match digit {
        b'0'..=b'9' => digit - b'0',
        b'A'..=b'F' => digit - b'A' + 10,
        b'a'..=b'f' => digit - b'a' + 10,
        _ => 16,
    }
}

fn all_digits(word: &[u8]) -> bool
    ensures { result ≡ all_hex_digits word.now }
{
    word.iter().all(|digit| value(*digit) < 16)
}

// Whether the word can be read as HEX.
pub fn is_hex(word: &[u8]) -> bool
    ensures { result ≡ is_hex_of word.now }
{
    word == b"-".as_slice() || !word.is_empty() && word.len() % 2 == 0 && all_digits(word)
}

// Puts the bytes of the pairs at the buffer's start.
fn decode(word: &[u8], out: &mut [u8])
    requires { (is_hex_of word.now ≡ Bool.true) × (length word.now / 2 ≤ length out.old) }
    ensures { out.new ≡ over 0 (pairs_of word.now) out.old }
{
    for i in 0..word.len() / 2 {
        out[i] = value(word[2 * i]) * 16 + value(word[2 * i + 1]);
    }
}

// The bytes that the word stands for. A word that is no HEX is refused with 4, a short buffer with 2.
pub fn read(word: &[u8], out: &mut [u8]) -> Result<usize, Refusal>
    ensures { left (returned result) out.new ≡ read_of word.now out.old }
{
    if is_hex(word) {
        let n = word.len() / 2;
        if out.len() < n {
            return Err(Refusal::ShortBuffer);
        }
        decode(word, out);
        Ok(n)
    } else {
        Err(Refusal::BadArgument)
    }
}

// The upper-case digit of a value.
fn digit(value: u8) -> u8
    requires { value < 16 }
    ensures { result ≡ digit_of value }
{
    if value < 10 {
        b'0' + value
    } else {
        b'A' + (value - 10)
    }
}

// Puts the digits of the bytes into the buffer from a place on.
fn put_digits(bytes: &[u8], out: &mut [u8], at: usize)
    requires { at + 2 * length bytes.now ≤ length out.old }
    ensures { out.new ≡ over at (digits_of_lem bytes.now) out.old }
{
    for (i, byte) in bytes.iter().enumerate() {
        out[at + 2 * i] = digit(byte / 16);
        out[at + 2 * i + 1] = digit(byte % 16);
    }
}

// Puts the bytes as HEX into the buffer from a place on, and gives the place behind them. Where there is no room nothing is put.
pub fn put(bytes: &[u8], out: &mut [u8], at: usize) -> usize
    ensures { placed result out.new ≡ put_at at (hex_of bytes.now) out.old }
{
    let n = bytes.len();
    if n == 0 {
        return text::put(b"-", out, at);
    }
    if out.len() < at {
        return at;
    }
    if (out.len() - at) / 2 < n {
        return at;
    }
    put_digits(bytes, out, at);
    at + 2 * n
}
