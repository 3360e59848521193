// Records put into a list, each in its place and instead of the older record of its card.
ghost use Rattle.std.specs.Prelude.{◌≡◌, Bool, ◌++◌, ◌∷◌, ◌+◌, ◌*◌, ◌≤◌, length, take, drop};
ghost use Rattle.presence_list.specs.Names.{record_size, identifier_limit, card_limit, cards_size};
ghost use Rattle.presence_list.specs.Keyed.{supersede, supersede_all};
ghost use Rattle.presence_list.specs.Memory.{pieces, laid, card_in, length_in, long_in, kept_record, kept_records};
ghost use Rattle.presence_list.specs.Presence.{any};
ghost use Rattle.presence_list.specs.CardsAt.{CardsAt, PutAll};

use super::lists::search;
use super::records::{RECORD_SIZE, Record, card_of, entry_of, first_records, put_at};
use errors::RoundRefusal;

// How many cards a list takes.
pub const CARD_LIMIT: usize = 64;

// Puts a record between those of a list of so many.
#[tactic(auto, using(crate::specs::Inserts::inserted))]
fn insert(entry: &Record, cards: &mut [u8], count: usize, place: usize)
    requires { (place ≤ count) × (record_size * count + record_size ≤ length cards.old) }
    ensures { cards.new ≡ laid (take place (pieces count cards.old) ++ entry.now ∷ drop place (pieces count cards.old)) cards.old }
{
    let at = RECORD_SIZE * place;
    cards.copy_within(at..RECORD_SIZE * count, at + RECORD_SIZE);
    put_at(entry, cards, place);
}

// Puts a record into the list, and gives how many cards the list has then. A list that has no room for it stays as it was.
fn supersede(found: &Record, cards: &mut [u8], count: usize) -> Result<usize, RoundRefusal>
    requires { (length_in found.now ≤ identifier_limit) × CardsAt count cards.old × (count ≤ card_limit) × (cards_size ≤ length cards.old) }
    ensures { PutAll result (supersede card_in (kept_record found.now) (pieces count cards.old)) cards.old cards.new }
{
    let entry = entry_of(found);
    match search(first_records(cards, count), card_of(found)) {
        Ok(place) => {
            put_at(&entry, cards, place);
            Ok(count)
        }
        Err(place) => {
            if count < CARD_LIMIT {
                insert(&entry, cards, count, place);
                return Ok(count + 1);
            }
            Err(RoundRefusal::ListFull)
        }
    }
}

// Puts the records into the list, one after the other, and gives how many cards the list has then, if it takes them.
pub(crate) fn supersede_all(
    records: &[Record],
    cards: &mut [u8],
    count: usize,
) -> Result<usize, RoundRefusal>
    requires { (any long_in records.now ≡ Bool.false) × CardsAt count cards.old × (count ≤ card_limit) × (cards_size ≤ length cards.old) }
    ensures { PutAll result (supersede_all card_in (pieces count cards.old) (kept_records records.now)) cards.old cards.new }
{
    let mut n = count;
    for record in records {
        n = supersede(record, cards, n)?;
    }
    Ok(n)
}
