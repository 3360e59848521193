// Whether a chip's memory is one that can be: what a step or an addition looks at before all else.
#![tactic(auto, using(errors::specs::Rules::picks), unfolding(errors::specs::Choice::pick, crate::specs::Range::card_in_range, crate::specs::Range::in_range))]

ghost use Rattle.std.specs.Prelude.{◌≡◌, Bool, false, true, ◌+◌, ◌≤◌, length, MatchOption};
ghost use Rattle.simulated_chip.specs.Memory.{card_size};
ghost use Rattle.simulated_chip.specs.Range.{card_in_range, cards_in_range, sent_in_range, replies_in_range, chip_in_range};

use super::chip::Chip;
use super::memory::text_length;
use super::names::{
    BR_TY_OFFSET, CARD_LIMIT, CARD_SIZE, CARDS_SIZE, DEP_NUMBER, LAST_BR_TY, LIST_DATA_LIMIT,
    LIST_DATA_OFFSET, PLACES, REPLY_BYTES_LIMIT, REPLY_COUNT_OFFSET, REPLY_LIMIT,
    REPLY_MEMORY_SIZE, REPLY_SIZE, SENT_BYTES_LIMIT, SENT_MEMORY_SIZE, SENT_SIZE,
};

// A chip that can be, lent: each number and each length is within its limit.
#[derive(Clone, Copy)]
pub(crate) struct Ranged<'a> {
    pub(crate) chip: &'a Chip,
    ghost in_range: { chip_in_range chip.now ≡ true },
}

// The card that starts at a place.
fn is_card_in_range(cards: &[u8], at: usize) -> bool
    requires { at + card_size ≤ length cards.now }
    ensures { result ≡ card_in_range at cards.now }
{
    cards[at] <= DEP_NUMBER
        && cards[at + BR_TY_OFFSET] <= LAST_BR_TY
        && usize::from(cards[at + REPLY_COUNT_OFFSET]) <= REPLY_LIMIT
        && text_length(cards, at + LIST_DATA_OFFSET) <= LIST_DATA_LIMIT
}

fn are_cards_in_range(cards: &[u8; CARDS_SIZE]) -> bool
    ensures { result ≡ cards_in_range cards.now }
{
    (0..CARD_LIMIT).all(|i| is_card_in_range(cards, CARD_SIZE * i))
}

fn are_sent_in_range(sent: &[u8; SENT_MEMORY_SIZE]) -> bool
    ensures { result ≡ sent_in_range sent.now }
{
    (0..PLACES).all(|i| text_length(sent, SENT_SIZE * i) <= SENT_BYTES_LIMIT)
}

fn are_replies_in_range(replies: &[u8; REPLY_MEMORY_SIZE]) -> bool
    ensures { result ≡ replies_in_range replies.now }
{
    (0..PLACES).all(|i| text_length(replies, REPLY_SIZE * i) <= REPLY_BYTES_LIMIT)
}

impl Chip {
    // Whether each number and each length is within its limit.
    pub(crate) fn is_in_range(&self) -> bool
        ensures { result ≡ chip_in_range self.now }
    {
        let state = self.state;
        usize::from(state.count) <= CARD_LIMIT
            && state.found <= state.count
            && state.on <= 1
            && are_cards_in_range(&self.cards)
            && are_sent_in_range(&self.sent)
            && are_replies_in_range(&self.replies)
    }

    // The chip as one that can be; none where it is not.
    pub(crate) fn ranged(&self) -> Option<Ranged<'_>>
        ensures { MatchOption result (chip_in_range self.now ≡ false) (λ r. r.chip.now ≡ self.now) }
    {
        if self.is_in_range() {
            Some(Ranged { chip: self })
        } else {
            None
        }
    }
}
