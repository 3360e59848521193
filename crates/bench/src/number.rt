// A number in decimal digits, read from a word.
#![tactic(auto, using(framing::specs::Rules::steps), unfolding(errors::specs::Choice::pick, errors::specs::Choice::in_range, crate::specs::Numbers::digit_value_of))]

ghost use Rattle.std.specs.Prelude.{◌≡◌, ◌<◌, MatchOption};
ghost use Rattle.bench.specs.Numbers.{digit_value_of, number_of};

// The value of a decimal digit.
fn digit_value(byte: u8) -> Option<u32>
    ensures { MatchOption result (digit_value_of byte ≡ 10) (λ v. (v ≡ digit_value_of byte) × (v < 10)) }
{
    match byte {
        b'0'..=b'9' => Some(u32::from(byte - b'0')),
        _ => None,
    }
}

// One or more digits, of a number that has 32 bits.
pub fn read(word: &[u8]) -> Option<u32>
    ensures { result ≡ number_of word.now }
{
    if word.is_empty() {
        return None;
    }
    let mut n: u32 = 0;
    for byte in word {
        let value = digit_value(*byte)?;
        n = n.checked_mul(10)?.checked_add(value)?;
    }
    Some(n)
}
