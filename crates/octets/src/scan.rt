// A byte looked for in a part of a slice.

ghost use Rattle.std.specs.Prelude.{◌≡◌, ◌+◌, ◌≤◌, length};
ghost use Rattle.octets.specs.Bytes.{index_of, slice};

// The place of the first `byte` of `bytes` from `from` on and below `to`; `to` where there is none.
pub fn find(bytes: &[u8], from: usize, to: usize, byte: u8) -> usize
    requires order { from ≤ to }
    requires within { to ≤ length bytes.now }
    ensures place { result ≡ from + index_of byte (slice from to bytes.now) }
    ensures bounds { (from ≤ result) × (result ≤ to) }
{
    match bytes[from..to].iter().position(|b| *b == byte) {
        Some(at) => from + at,
        None => to,
    }
}
