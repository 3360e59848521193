// Whether a card or a reply is taken: 4 before 3.
#![tactic(auto, using(errors::specs::Rules::picks, crate::specs::RangeLaws::few_cards), unfolding(errors::specs::Choice::pick, chip_protocol::specs::Add::add_card, crate::specs::Additions::is_protocol_byte_of, crate::specs::Additions::is_sound, crate::specs::Additions::is_type2_in, crate::specs::Additions::lengths_addition, crate::specs::Additions::limit_of_kind))]

ghost use Rattle.std.specs.Prelude.{◌≡◌, Bool, List, ◌*◌, ◌<◌, length};
ghost use Rattle.chip_protocol.specs.Field.{Card, kind_number, br_ty, is_bitrate_of, least_list_data, protocol_fits, crc_fits};
ghost use Rattle.chip_protocol.specs.Add.{wake_up_reply, add_card, add_reply};
ghost use Rattle.simulated_chip.specs.Memory.{card_size, field_in};
ghost use Rattle.simulated_chip.specs.Additions.{is_sound, addition_in, is_protocol_byte_of, is_type2_in, limit_of_kind, lengths_addition};

use super::names::CARD_SIZE;
use super::range::Ranged;
use super::{Kind, names};
use errors::Refusal;
use targets::Bitrate;
use targets::type_a::is_type2;

// The number of a kind in memory.
// Kept: a From stands in the crate of one of its types; Kind is of `chip_protocol`, which has no code.
pub(crate) fn kind_number(kind: Kind) -> u8
    ensures { result ≡ kind_number kind }
{
    match kind {
        Kind::TypeA => names::TYPE_A_NUMBER,
        Kind::TypeB => names::TYPE_B_NUMBER,
        Kind::TypeF => names::TYPE_F_NUMBER,
        Kind::Dep => names::DEP_NUMBER,
    }
}

// The code of a bitrate in memory.
// Kept: a From stands in the crate of one of its types; Bitrate is of `targets`, which knows no number of a chip.
pub(crate) fn br_ty(bitrate: Bitrate) -> u8
    ensures { result ≡ br_ty bitrate }
{
    match bitrate {
        Bitrate::B106A => names::CODE_106A,
        Bitrate::B212F => names::CODE_212F,
        Bitrate::B424F => names::CODE_424F,
        Bitrate::B106B => names::CODE_106B,
        _ => names::NO_BR_TY,
    }
}

// Whether the discovery of the kind takes the bitrate.
fn is_bitrate_of(kind: Kind, bitrate: Bitrate) -> bool
    ensures { result ≡ is_bitrate_of kind bitrate }
{
    let code = br_ty(bitrate);
    match kind {
        Kind::TypeA => code <= names::CODE_106B,
        Kind::TypeB => code == names::CODE_106B,
        Kind::TypeF => code != names::CODE_106A && code <= names::CODE_424F,
        Kind::Dep => code <= names::CODE_424F,
    }
}

// The fewest list data for the discovery of a kind.
fn least_list_data(kind: Kind) -> usize
    ensures { result ≡ least_list_data kind }
{
    match kind {
        Kind::TypeA => names::TYPE_A_NEED,
        Kind::TypeB => names::TYPE_B_NEED,
        Kind::TypeF => names::TYPE_F_NEED,
        Kind::Dep => 0,
    }
}

// Byte 10 of Type B, masked with 09, is 01.
fn is_protocol_byte(byte: u8) -> bool
    ensures { result ≡ is_protocol_byte_of byte }
{
    byte % 2 == 1 && byte / 8 % 2 == 0
}

fn protocol_fits(kind: Kind, list_data: &[u8]) -> bool
    ensures { result ≡ protocol_fits kind list_data.now }
{
    match kind {
        Kind::TypeB => {
            is_protocol_byte(list_data.get(names::PROTOCOL_OFFSET).copied().unwrap_or(0))
        }
        Kind::TypeA | Kind::TypeF | Kind::Dep => true,
    }
}

// Whether the field has a place, the bitrate is one of the kind, and the list data serves the discovery.
fn is_sound(count: usize, kind: Kind, bitrate: Bitrate, list_data: &[u8]) -> bool
    ensures { result ≡ is_sound count kind bitrate list_data.now }
{
    count < names::CARD_LIMIT
        && is_bitrate_of(kind, bitrate)
        && least_list_data(kind) <= list_data.len()
        && protocol_fits(kind, list_data)
}

// The length of the reply to WUPB, of Type B alone.
fn atqb_length(kind: Kind, atqb: &[u8]) -> usize
    ensures { result ≡ length (wake_up_reply kind atqb.now) }
{
    match kind {
        Kind::TypeB => atqb.len(),
        Kind::TypeA | Kind::TypeF | Kind::Dep => 0,
    }
}

// Whether a field of so many cards takes the card.
pub(crate) fn admit_card(
    count: usize,
    kind: Kind,
    bitrate: Bitrate,
    list_data: &[u8],
    atqb: &[u8],
) -> Result<(), Refusal>
    ensures { (f : List Card) → length f ≡ count → result ≡ addition_in (add_card f kind bitrate list_data.now atqb.now) }
{
    if !is_sound(count, kind, bitrate, list_data) {
        return Err(Refusal::BadArgument);
    }
    if names::LIST_DATA_LIMIT < list_data.len() {
        return Err(Refusal::OverLong);
    }
    if names::REPLY_BYTES_LIMIT < atqb_length(kind, atqb) {
        return Err(Refusal::OverLong);
    }
    Ok(())
}

// Whether a reply of over 2 bytes ends in its CRC_A.
fn has_crc(reply: &[u8]) -> bool
    ensures { result ≡ crc_fits Bool.true reply.now }
{
    reply.len() <= 2 || crc::check_crc_a(reply)
}

// How many replies a card of the kind with this number has at most.
fn reply_limit(kind: u8) -> usize
    ensures { result ≡ limit_of_kind kind }
{
    if kind == names::TYPE_B_NUMBER {
        return names::REPLY_LIMIT;
    }
    names::STATED_LIMIT
}

// The lengths of a reply, and whether a card that has so many takes another.
fn admit_lengths(bytes: &[u8], reply: &[u8], count: usize, limit: usize) -> Result<(), Refusal>
    ensures { result ≡ lengths_addition bytes.now reply.now count limit }
{
    if reply.len() <= names::REPLY_BYTES_LIMIT
        && bytes.len() <= names::SENT_BYTES_LIMIT
        && count < limit
    {
        return Ok(());
    }
    Err(Refusal::OverLong)
}

impl Ranged<'_> {
    // Whether a card is a Type 2 card.
    // Kept: a place among the cards is a number that a search found; a type for it would have to be told which chip it is of.
    fn is_type2_card(self, card: usize) -> bool
        requires { card < self.chip.now.state.count }
        ensures { result ≡ is_type2_in (card_size * card) self.entry.chip.now.cards }
    {
        let cards = &self.chip.cards;
        let at = CARD_SIZE * card;
        cards[at] == names::TYPE_A_NUMBER
            && cards[at + names::BR_TY_OFFSET] == names::CODE_106A
            && is_type2(
                self.list_data(card)
                    .get(names::SEL_RES_OFFSET)
                    .copied()
                    .unwrap_or(0),
            )
    }

    // Whether the reply is one that the card can give: a Type 2 card's has its CRC_A.
    fn crc_fits(self, card: usize, reply: &[u8]) -> bool
        requires { card < self.chip.now.state.count }
        ensures { result ≡ crc_fits (is_type2_in (card_size * card) self.entry.chip.now.cards) reply.now }
    {
        if self.is_type2_card(card) {
            return has_crc(reply);
        }
        true
    }

    // Whether the last card takes the reply.
    pub(crate) fn admit_reply(self, bytes: &[u8], reply: &[u8]) -> Result<(), Refusal>
        ensures { result ≡ addition_in (add_reply (field_in self.entry.chip.now) bytes.now reply.now) }
    {
        let chip = self.chip;
        let Some(card) = usize::from(chip.state.count).checked_sub(1) else {
            return Err(Refusal::BadArgument);
        };
        if self.reply_place(card, bytes).is_some() {
            return Err(Refusal::BadArgument);
        }
        if !self.crc_fits(card, reply) {
            return Err(Refusal::BadArgument);
        }
        let at = CARD_SIZE * card;
        let count = usize::from(chip.cards[at + names::REPLY_COUNT_OFFSET]);
        admit_lengths(bytes, reply, count, reply_limit(chip.cards[at]))
    }
}
