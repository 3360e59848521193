// What is looked at before a round is taken: the lent records, and the list.
#![tactic(auto, using(errors::specs::Rules::picks), unfolding(errors::specs::Choice::pick))]

ghost use Rattle.std.specs.Prelude.{◌≡◌};
ghost use Rattle.presence_list.specs.Memory.{long_in, is_known_in, in_range_in, ascending as ascending_of};
ghost use Rattle.presence_list.specs.Presence.{any, every};

use super::order::before;
use super::records::{BITRATE_OFFSET, LENGTH_OFFSET, MISSED_OFFSET, Record, card_of};

// How many bytes an identifier has at most.
pub const IDENTIFIER_LIMIT: u8 = 16;

// The last kind, DEP, and the last bitrate, 848B.
pub const LAST_CARD_KIND: u8 = 4;

pub const LAST_BITRATE: u8 = 6;

// Whether an identifier of the records is too long.
pub(crate) fn any_over_long(records: &[Record]) -> bool
    ensures { result ≡ any long_in records.now }
{
    records
        .iter()
        .any(|record| IDENTIFIER_LIMIT < record[LENGTH_OFFSET])
}

// Whether a record's kind and bitrate are some.
fn is_known(record: &Record) -> bool
    ensures { result ≡ is_known_in record.now }
{
    record[0] <= LAST_CARD_KIND && record[BITRATE_OFFSET] <= LAST_BITRATE
}

// Whether all kinds and bitrates of the records are some.
pub(crate) fn are_known(records: &[Record]) -> bool
    ensures { result ≡ every is_known_in records.now }
{
    records.iter().all(is_known)
}

// Whether the fields of a record of the list are in range.
fn is_in_range(record: &Record) -> bool
    ensures { result ≡ in_range_in record.now }
{
    record[LENGTH_OFFSET] <= IDENTIFIER_LIMIT && record[MISSED_OFFSET] <= 1 && is_known(record)
}

// Whether the fields of all records of a list are in range.
pub(crate) fn are_in_range(cards: &[Record]) -> bool
    ensures { result ≡ every in_range_in cards.now }
{
    cards.iter().all(is_in_range)
}

// Whether each card of a list comes before the next.
pub(crate) fn are_ascending(cards: &[Record]) -> bool
    ensures { result ≡ ascending_of cards.now }
{
    cards.is_sorted_by(|card, next| before(card_of(card), card_of(next)))
}
