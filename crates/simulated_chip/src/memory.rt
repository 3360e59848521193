// Texts in memory: the length in two bytes, low byte first, and the bytes.
#![tactic(auto, using(errors::specs::Rules::picks), unfolding(errors::specs::Choice::pick, crate::specs::Memory::put_text, crate::specs::Memory::text_at_of))]

ghost use Rattle.std.specs.Prelude.{◌≡◌, ◌+◌, ◌≤◌, ◌<◌, length};
ghost use Rattle.simulated_chip.specs.Memory.{text_length, text_at_of, put_text};

use super::names::TEXT_OFFSET;

// The length that stands at a place.
pub(crate) fn text_length(memory: &[u8], at: usize) -> usize
    requires { at + 2 ≤ length memory.now }
    ensures { (result ≡ text_length at memory.now) × (result < 65536) }
{
    usize::from(u16::from_le_bytes([memory[at], memory[at + 1]]))
}

// The text at a place.
pub(crate) fn text_at(memory: &[u8], at: usize) -> &[u8]
    requires { at + 2 + text_length at memory.now ≤ length memory.now }
    ensures { result.now ≡ text_at_of at memory.now }
{
    let start = at + TEXT_OFFSET;
    &memory[start..start + text_length(memory, at)]
}

// Puts a text to a place.
pub(crate) fn put_text(text: &[u8], memory: &mut [u8], at: usize)
    requires { (length text.now < 65536) × (at + (length text.now + 2) ≤ length memory.old) }
    ensures { memory.new ≡ put_text at text.now memory.old }
{
    let [low, high] = (text.len() as u16).to_le_bytes();
    memory[at] = low;
    memory[at + 1] = high;
    octets::copy(text, &mut memory[at + TEXT_OFFSET..]);
}
