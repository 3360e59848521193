// The search for a card in the field, and for a card's reply.
#![tactic(auto, using(errors::specs::Rules::picks, crate::specs::RangeLaws::few_cards), unfolding(errors::specs::Choice::pick, chip_protocol::specs::Field::reply_to, crate::specs::Memory::is_stored_at))]

ghost use Rattle.std.specs.Prelude.{◌≡◌, ◌+◌, ◌*◌, ◌≤◌, ◌<◌, length, drop, get_or, IfSome, MatchOption};
ghost use Rattle.std.proofs.Math.Option.{none, some};
ghost use Rattle.chip_protocol.specs.Names.{initiator_offset, longest_list_data, longest_reply};
ghost use Rattle.chip_protocol.specs.Field.{kind_number, reply_to};
ghost use Rattle.chip_protocol.specs.Chip.{first_place_of, listed_place, partner_place};
ghost use Rattle.simulated_chip.specs.Memory.{card_size, card_replies, reply_count_place, is_stored_at, field_in, place_of, text_at_of, list_data_place, card_replies_in, places, reply_found};

use super::Kind;
use super::admit::kind_number;
use super::memory::text_at;
use super::names::{
    BR_TY_OFFSET, CARD_SIZE, INITIATOR_OFFSET, LIST_DATA_OFFSET, REPLY_COUNT_OFFSET, REPLY_LIMIT,
    REPLY_SIZE, SEARCH_BR_TY_OFFSET, SENT_SIZE, TYPE_A_INITIATOR, TYPE_B_INITIATOR,
    TYPE_F_INITIATOR,
};
use super::range::Ranged;

// Whether the card that starts at a place is of the kind, at the bitrate that has this code.
fn is_at(cards: &[u8], at: usize, kind: Kind, code: u8) -> bool
    requires { at + card_size ≤ length cards.now }
    ensures { result ≡ is_stored_at (kind_number kind) code at cards.now }
{
    cards[at] == kind_number(kind) && cards[at + BR_TY_OFFSET] == code
}

// How long the initiator data is.
fn initiator_length(bytes: &[u8]) -> usize
    ensures { result ≡ length (drop initiator_offset bytes.now) }
{
    bytes.len().saturating_sub(INITIATOR_OFFSET)
}

// The code of the bitrate that a search has.
fn code_searched(bytes: &[u8]) -> u8
    ensures { result ≡ get_or bytes.now 1 0 }
{
    bytes.get(SEARCH_BR_TY_OFFSET).copied().unwrap_or(0)
}

impl<'a> Ranged<'a> {
    // The first card of the kind, at the bitrate that has this code.
    fn first_place(self, kind: Kind, code: u8) -> Option<usize>
        ensures count { IfSome result (λ i. i < self.entry.chip.now.state.count) }
        ensures place { place_of result ≡ first_place_of kind code (field_in self.entry.chip.now) }
    {
        let chip = self.chip;
        (0..usize::from(chip.state.count)).position(|i| is_at(
            &chip.cards,
            CARD_SIZE * i,
            kind,
            code,
        ))
    }

    // InListPassiveTarget.
    pub(crate) fn listed_place(self, bytes: &[u8]) -> Option<usize>
        ensures count { IfSome result (λ i. i < self.entry.chip.now.state.count) }
        ensures place { place_of result ≡ listed_place (field_in self.entry.chip.now) bytes.now }
    {
        let code = code_searched(bytes);
        match initiator_length(bytes) {
            TYPE_A_INITIATOR => self.first_place(Kind::TypeA, code),
            TYPE_B_INITIATOR => self.first_place(Kind::TypeB, code),
            TYPE_F_INITIATOR => self.first_place(Kind::TypeF, code),
            _ => None,
        }
    }

    // InJumpForDEP.
    pub(crate) fn partner_place(self, bytes: &[u8]) -> Option<usize>
        ensures count { IfSome result (λ i. i < self.entry.chip.now.state.count) }
        ensures place { place_of result ≡ partner_place (field_in self.entry.chip.now) bytes.now }
    {
        self.first_place(Kind::Dep, code_searched(bytes))
    }

    // The list data of a card.
    pub(crate) fn list_data(self, card: usize) -> &'a [u8]
        requires { card < self.chip.now.state.count }
        ensures text { result.now ≡ text_at_of (card_size * card + list_data_place) self.entry.chip.now.cards }
        ensures short { length result.now ≤ longest_list_data }
    {
        text_at(&self.chip.cards, CARD_SIZE * card + LIST_DATA_OFFSET)
    }

    // The place of the first of a card's replies that is to these bytes.
    pub(crate) fn reply_place(self, card: usize, bytes: &[u8]) -> Option<usize>
        requires { card < self.chip.now.state.count }
        ensures reply { reply_to (card_replies_in card self.entry.chip.now) bytes.now ≡ reply_found result self.entry.chip.now.replies }
        ensures few { IfSome result (λ j. j < places) }
    {
        let chip = self.chip;
        let first = REPLY_LIMIT * card;
        let count = usize::from(chip.cards[CARD_SIZE * card + REPLY_COUNT_OFFSET]);
        (first..first + count).find(|&i| framing::is_exactly(
            bytes,
            text_at(&chip.sent, SENT_SIZE * i),
        ))
    }

    // The first of a card's replies that is to these bytes.
    pub(crate) fn reply(self, card: usize, bytes: &[u8]) -> Option<&'a [u8]>
        requires { card < self.chip.now.state.count }
        ensures stated { MatchOption result (reply_to (card_replies_in card self.entry.chip.now) bytes.now ≡ none) (λ r. reply_to (card_replies_in card self.entry.chip.now) bytes.now ≡ some r.now) }
        ensures short { IfSome result (λ r. length r.now ≤ longest_reply) }
    {
        let place = self.reply_place(card, bytes)?;
        Some(text_at(&self.chip.replies, REPLY_SIZE * place))
    }
}
