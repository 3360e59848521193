// What the bench programs share: the lines of their input, words, numbers, HEX, and texts, as functions on slices.
#![tactic(auto)]

pub mod hex;
pub mod lines;
pub mod number;
pub mod text;
pub mod words;

ghost use Rattle.std.specs.Prelude.{◌≡◌, take};

// The first n bytes; all of them where there are fewer.
pub fn prefix(n: usize, bytes: &[u8]) -> &[u8]
    ensures { result.now ≡ take n bytes.now }
{
    &bytes[..n.min(bytes.len())]
}
