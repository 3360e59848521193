// The bitrate texts of document 01: their form, their send part, and its code. The target data of a list are in type_a.rt.
#![tactic(auto)]

pub mod type_a;

ghost use Rattle.std.specs.Prelude.{[], ◌∷◌, ◌≡◌, Bool, MatchOption};
ghost use Rattle.targets.specs.Bitrates.{choice_of, coded, code_of, is_rate, rate_number, send_part_of, NoRate, StartsWithRate};
ghost use Rattle.targets.specs.Form.{is_digit, IsDigit};
ghost use Rattle.errors.specs.Refusals.{returned};

use errors::Refusal;

// The send parts that the calls tell apart; any other well-formed one is Other.
#[derive(Clone, Copy, Debug, PartialEq, Eq)]
pub enum Bitrate {
    B106A,
    B212F,
    B424F,
    B106B,
    B212B,
    B424B,
    B848B,
    Other,
}

// The length of the rate that the text starts with: the digits and a capital letter behind them.
fn rate_length(text: &[u8]) -> Option<usize>
    ensures { MatchOption result (NoRate text.now) (StartsWithRate text.now) }
{
    let digits = text.iter().position(|b| !b.is_ascii_digit())?;
    if digits > 0 && text[digits].is_ascii_uppercase() {
        Some(digits + 1)
    } else {
        None
    }
}

// One rate: one or more digits, then one capital letter.
#[tactic(auto, using(crate::proofs::RateLaws::no_rate, crate::proofs::RateLaws::is_rate_lem))]
pub fn is_valid_bitrate(text: &[u8]) -> bool
    ensures { result ≡ is_rate text.now }
{
    rate_length(text).is_some_and(|n| n == text.len())
}

// One rate, or two with `/` between; the send part is the first, and its length is the answer.
#[tactic(auto, using(crate::proofs::RateLaws::no_send, crate::proofs::RateLaws::send_alone, crate::proofs::RateLaws::no_slash, crate::proofs::RateLaws::receive_bad, crate::proofs::RateLaws::send_both), unfolding(errors::specs::Refusals::returned))]
pub fn parse(text: &[u8]) -> Result<usize, Refusal>
    ensures { returned result ≡ send_part_of text.now }
{
    let Some(n) = rate_length(text) else {
        return Err(Refusal::Bitrate);
    };
    if n == text.len() {
        return Ok(n);
    }
    if text[n] != b'/' {
        return Err(Refusal::Bitrate);
    }
    if is_valid_bitrate(&text[n + 1..]) {
        Ok(n)
    } else {
        Err(Refusal::Bitrate)
    }
}

// The number that a digit writes.
#[tactic(auto, using(crate::proofs::Laws::no_digit, crate::proofs::Laws::a_digit))]
fn digit(byte: u8) -> Option<u8>
    ensures { MatchOption result (is_digit byte ≡ Bool.false) (IsDigit byte) }
{
    if byte.is_ascii_digit() {
        Some(byte - b'0')
    } else {
        None
    }
}

// The number that three digits write.
fn bitrate_number(a: u8, b: u8, c: u8) -> Option<u16>
    ensures { MatchOption result (rate_number a b c ≡ 0) (λ n. n ≡ rate_number a b c) }
{
    Some(100 * u16::from(digit(a)?) + 10 * u16::from(digit(b)?) + u16::from(digit(c)?))
}

// The code of a rate of three digits, by its number and its suffix.
#[tactic(auto, using(crate::proofs::Laws::no_code))]
fn bitrate_code(a: u8, b: u8, c: u8, suffix: u8) -> Bitrate
    ensures { result ≡ code_of (a ∷ b ∷ c ∷ suffix ∷ []) }
{
    let Some(number) = bitrate_number(a, b, c) else {
        return Bitrate::Other;
    };
    match (number, suffix) {
        (106, b'A') => Bitrate::B106A,
        (106, b'B') => Bitrate::B106B,
        (212, b'B') => Bitrate::B212B,
        (212, b'F') => Bitrate::B212F,
        (424, b'B') => Bitrate::B424B,
        (424, b'F') => Bitrate::B424F,
        (848, b'B') => Bitrate::B848B,
        _ => Bitrate::Other,
    }
}

// The code of a send part, by its text.
#[tactic(auto, using(crate::proofs::Laws::other_text, crate::proofs::Laws::four_text))]
fn send_code(send: &[u8]) -> Bitrate
    ensures { result ≡ code_of send.now }
{
    let [a, b, c, suffix] = send else {
        return Bitrate::Other;
    };
    bitrate_code(*a, *b, *c, *suffix)
}

// The code of the send part. The calls compare texts, so `0106A` is not `106A`. One of the seven texts is well-formed and needs no parse.
#[tactic(auto, using(crate::proofs::Laws::whole_code))]
pub fn code(text: &[u8]) -> Result<Bitrate, Refusal>
    ensures { coded result ≡ choice_of text.now }
{
    let whole = send_code(text);
    if whole != Bitrate::Other {
        return Ok(whole);
    }
    let n = parse(text)?;
    Ok(send_code(&text[..n]))
}
