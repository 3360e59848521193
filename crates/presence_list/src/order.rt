// The order of cards, as texts of bytes.
ghost use Rattle.std.specs.Prelude.{◌≡◌};
ghost use Rattle.presence_list.specs.Order.{before as before_of};

// Whether the first text comes before the second: by the first byte in which they differ, and a prefix first.
#[tactic(auto, using(crate::specs::OrderLaws::is_before))]
// Kept: `<` of slices, promised in the words of the definition.
pub(crate) fn before(first: &[u8], second: &[u8]) -> bool
    ensures { result ≡ before_of first.now second.now }
{
    first < second
}
