// Lists of records in the order of their cards: a card's place, who is in the one and not in the other, and the list before a round.
ghost use Rattle.std.specs.Prelude.{◌≡◌, ◌*◌, ◌≤◌, length};
ghost use Rattle.presence_list.specs.Names.{record_size};
ghost use Rattle.presence_list.specs.Keyed.{Sorted, without as without_of};
ghost use Rattle.presence_list.specs.Memory.{laid, card_in, aged};
ghost use Rattle.presence_list.specs.CardsAt.{Searched};

use super::records::{MISSED_OFFSET, Record, card_of, put_at};

// Where a card is, or else where its place is: behind all that come before it.
pub(crate) fn search(cards: &[Record], card: &[u8]) -> Result<usize, usize>
    requires { Sorted card_in cards.now }
    ensures { Searched result card.now cards.now }
{
    cards.binary_search_by(|record| card_of(record).cmp(card))
}

// The records of a list whose cards the other has not, put at the start of `out`; and how many they are.
// Kept: a loop of its own beside that of `age`. One function for both, with a closure for what is put, has a longer contract than the two.
pub(crate) fn without(other: &[Record], cards: &[Record], out: &mut [u8]) -> usize
    requires { Sorted card_in other.now × (record_size * length cards.now ≤ length out.old) }
    ensures { (result ≡ length (without_of card_in other.now cards.now)) × (out.new ≡ laid (without_of card_in other.now cards.now) out.old) }
{
    let mut n = 0;
    for card in cards {
        if search(other, card_of(card)).is_err() {
            put_at(card, out, n);
            n += 1;
        }
    }
    n
}

// The list before the records of a round, put at the start of `out`: who was missed already has left, and all others are missed until they
// are seen. The answer is how many they are.
pub(crate) fn age(cards: &[Record], out: &mut [u8]) -> usize
    requires { record_size * length cards.now ≤ length out.old }
    ensures { (result ≡ length (aged cards.now)) × (out.new ≡ laid (aged cards.now) out.old) }
{
    let mut n = 0;
    for card in cards {
        if card[MISSED_OFFSET] == 0 {
            let mut missed = *card;
            missed[MISSED_OFFSET] = 1;
            put_at(&missed, out, n);
            n += 1;
        }
    }
    n
}
