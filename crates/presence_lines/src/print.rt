// What is printed for a round. Each function gives the place behind its text; a text that has no room is not put.
#![tactic(auto, using(errors::specs::Rules::picks), unfolding(errors::specs::Choice::pick, crate::specs::Lines::card_text, crate::specs::Lines::cards_text, crate::specs::Lines::lists_text, crate::specs::Lines::rate_text, crate::specs::Lines::refused_text, presence_list::specs::Memory::pieces))]

ghost use Rattle.std.specs.Prelude.{◌≤◌};
ghost use Rattle.bench.specs.Texts.{Appends};
ghost use Rattle.presence_list.specs.Names.{card_limit};
ghost use Rattle.presence_list.specs.Memory.{pieces};
ghost use Rattle.presence_lines.specs.Lines.{card_text, rate_text, cards_text, refused_text, lists_text};

use super::read::{BITRATES, HELD, KINDS};
use bench::{hex, prefix, text, words};
use errors::{Numbered, RoundRefusal};
use presence_list::list::{Counts, Presence};
use presence_list::{BITRATE_OFFSET, LENGTH_OFFSET, Record, first_records};

// A card of the list as `KIND:HEX`, a space before it.
fn put_card(card: &Record, out: &mut [u8], at: usize) -> usize
    ensures { Appends at (card_text card.now) out.old result out.new }
{
    let length = usize::from(card[LENGTH_OFFSET]);
    let kind = usize::from(card[0]);
    let second = text::put(b" ", out, at);
    let third = text::put(words::word(KINDS, kind), out, second);
    let fourth = text::put(b":", out, third);
    hex::put(prefix(length, &card[1..1 + HELD]), out, fourth)
}

// Its bitrate, where it is shown.
fn put_bitrate(card: &Record, shown: bool, out: &mut [u8], at: usize) -> usize
    ensures { Appends at (rate_text shown card.now) out.old result out.new }
{
    if shown {
        let bitrate = usize::from(card[BITRATE_OFFSET]);
        let next = text::put(b":", out, at);
        return text::put(words::word(BITRATES, bitrate), out, next);
    }
    at
}

// The cards of a list.
fn put_cards(cards: &[Record], shown: bool, out: &mut [u8], at: usize) -> usize
    ensures { Appends at (cards_text shown cards.now) out.old result out.new }
{
    let mut next = at;
    for card in cards {
        let behind = put_card(card, out, next);
        next = put_bitrate(card, shown, out, behind);
    }
    next
}

pub(crate) fn put_refused(refusal: RoundRefusal, out: &mut [u8]) -> usize
    ensures { Appends 0 (refused_text refusal) out.old result out.new }
{
    let numbered = Numbered::from(refusal);
    let at = text::put(b"refused ", out, 0);
    text::put_decimal(u64::from(numbered.number), out, at)
}

// The arrivals, the departures and the list.
pub(crate) fn put_report(list: &Presence, counts: Counts, out: &mut [u8]) -> usize
    requires { (counts.arrived ≤ card_limit) × (counts.departed ≤ card_limit) × (list.now.state.count ≤ card_limit) }
    ensures { Appends 0 (lists_text (pieces counts.arrived list.now.arrived) (pieces counts.departed list.now.departed) (pieces list.now.state.count list.now.cards)) out.old result out.new }
{
    let arrived = first_records(&list.arrived, counts.arrived);
    let departed = first_records(&list.departed, counts.departed);
    let cards = first_records(&list.cards, usize::from(list.state.count));
    let first = text::put(b"arrived", out, 0);
    let second = put_cards(arrived, false, out, first);
    let third = text::put(b" departed", out, second);
    let fourth = put_cards(departed, false, out, third);
    let fifth = text::put(b" present", out, fourth);
    put_cards(cards, true, out, fifth)
}
