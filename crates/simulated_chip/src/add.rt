// A card more in the field, a reply more of the card added last: refused with 4 before 3, and nothing changes then.
#![tactic(auto, using(errors::specs::Rules::picks), unfolding(errors::specs::Choice::pick, crate::specs::Additions::add_card_of, crate::specs::Additions::add_reply_of, crate::specs::Additions::put_card_of))]

ghost use Rattle.std.specs.Prelude.{◌≡◌, ◌+◌, ◌≤◌, ◌<◌, length};
ghost use Rattle.chip_protocol.specs.Names.{longest_list_data, longest_reply};
ghost use Rattle.chip_protocol.specs.Add.{wake_up_reply};
ghost use Rattle.simulated_chip.specs.Memory.{card_size, places};
ghost use Rattle.simulated_chip.specs.Additions.{put_card_of, first_count, first_sent, first_reply, after_with, added_by, CardAdmitted, card_put, ReplyAdmitted, reply_put, add_card_of, add_reply_of};

use super::admit::{admit_card, br_ty, kind_number};
use super::chip::{Chip, State};
use super::memory::put_text;
use super::names::{CARD_SIZE, REPLY_MEMORY_SIZE, REPLY_SIZE, SENT_MEMORY_SIZE, SENT_SIZE};
use super::{Kind, names};
use errors::Refusal;
use targets::Bitrate;

// Puts a card to a place.
// Kept: a struct of these would be built by the callers and opened here, which is no plainer.
fn put_card(cards: &mut [u8], at: usize, kind: u8, code: u8, count: u8, list_data: &[u8])
    requires { (length list_data.now ≤ longest_list_data) × (at + card_size ≤ length cards.old) }
    ensures { cards.new ≡ put_card_of at kind code count list_data.now cards.old }
{
    cards[at] = kind;
    cards[at + names::BR_TY_OFFSET] = code;
    cards[at + names::REPLY_COUNT_OFFSET] = count;
    put_text(list_data, cards, at + names::LIST_DATA_OFFSET);
}

// The reply to WUPB, which a Type B card has from its start; and how many replies it has then.
fn put_first(
    sent: &mut [u8; SENT_MEMORY_SIZE],
    replies: &mut [u8; REPLY_MEMORY_SIZE],
    place: usize,
    kind: Kind,
    atqb: &[u8],
) -> u8
    requires { (length (wake_up_reply kind atqb.now) ≤ longest_reply) × (place < places) }
    ensures { (result ≡ first_count kind) × (sent.new ≡ first_sent kind place sent.old) × (replies.new ≡ first_reply kind place atqb.now replies.old) }
{
    match kind {
        Kind::TypeB => {
            put_text(&names::WUPB, sent, SENT_SIZE * place);
            put_text(atqb, replies, REPLY_SIZE * place);
            1
        }
        Kind::TypeA | Kind::TypeF | Kind::Dep => 0,
    }
}

impl Chip {
    // The card put behind the others.
    fn put_card(&mut self, kind: Kind, bitrate: Bitrate, list_data: &[u8], atqb: &[u8])
        requires { CardAdmitted self.old.state.count kind list_data.now atqb.now }
        ensures { after_with self.new (Ok tt) ≡ card_put self.old.state self.old.cards self.old.sent self.old.replies kind bitrate list_data.now atqb.now }
    {
        let state = self.state;
        let n = usize::from(state.count);
        let first = put_first(
            &mut self.sent,
            &mut self.replies,
            names::REPLY_LIMIT * n,
            kind,
            atqb,
        );
        put_card(
            &mut self.cards,
            CARD_SIZE * n,
            kind_number(kind),
            br_ty(bitrate),
            first,
            list_data,
        );
        self.state = State {
            count: state.count + 1,
            ..state
        };
    }

    // A card more in the field. `atqb` is the reply to WUPB, of Type B alone.
    pub fn add_card(
        &mut self,
        kind: Kind,
        bitrate: Bitrate,
        list_data: &[u8],
        atqb: &[u8],
    ) -> Result<(), Refusal>
        ensures { added_by self.new result ≡ add_card_of self.old kind bitrate list_data.now atqb.now }
    {
        if !self.is_in_range() {
            return Err(Refusal::OutOfTurn);
        }
        admit_card(
            usize::from(self.state.count),
            kind,
            bitrate,
            list_data,
            atqb,
        )?;
        self.put_card(kind, bitrate, list_data, atqb);
        Ok(())
    }

    // The reply put behind the others of the last card.
    fn put_reply(&mut self, bytes: &[u8], reply: &[u8])
        requires { ReplyAdmitted self.old.state.count self.old.cards bytes.now reply.now }
        ensures { after_with self.new (Ok tt) ≡ reply_put self.old.state self.old.cards self.old.sent self.old.replies bytes.now reply.now }
    {
        let last = usize::from(self.state.count) - 1;
        let at = CARD_SIZE * last + names::REPLY_COUNT_OFFSET;
        let n = self.cards[at];
        let place = names::REPLY_LIMIT * last + usize::from(n);
        put_text(bytes, &mut self.sent, SENT_SIZE * place);
        put_text(reply, &mut self.replies, REPLY_SIZE * place);
        self.cards[at] = n + 1;
    }

    // The last card's reply to these bytes.
    pub fn add_reply(&mut self, bytes: &[u8], reply: &[u8]) -> Result<(), Refusal>
        ensures { added_by self.new result ≡ add_reply_of self.old bytes.now reply.now }
    {
        let Some(ranged) = self.ranged() else {
            return Err(Refusal::OutOfTurn);
        };
        ranged.admit_reply(bytes, reply)?;
        self.put_reply(bytes, reply);
        Ok(())
    }
}
