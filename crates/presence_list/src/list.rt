// The list of present cards: a round's number and records go in, and the list, the arrivals and the departures come out.
#![tactic(auto, using(errors::specs::Rules::picks), unfolding(errors::specs::Choice::pick, crate::specs::Steps::admission_of, crate::specs::Steps::list_in_range, crate::specs::Steps::readable_in, crate::specs::Steps::stale_at))]

ghost use Rattle.std.specs.Prelude.{◌≡◌, Bool};
ghost use Rattle.presence_list.specs.Memory.{long_in};
ghost use Rattle.presence_list.specs.Presence.{any};
ghost use Rattle.presence_list.specs.Steps.{list_in_range, stale_at, readable_in, admission_of, accept_of, rounded, round_of, empty_list};

use super::lists::{age, without};
use super::put::{CARD_LIMIT, supersede_all};
use super::range::{any_over_long, are_ascending, are_in_range, are_known};
use super::records::{RECORD_SIZE, Record, first_records, records_in};
use errors::{Refusal, RoundRefusal};

// The bytes of the records of a full list.
pub const CARDS_SIZE: usize = CARD_LIMIT * RECORD_SIZE;

// Whether a round was accepted (0 or 1), the last one's number, and how many cards the list has.
#[repr(C)]
#[derive(Clone, Copy, Debug, PartialEq, Eq)]
pub struct State {
    pub number: u32,
    // Kept: a struct of the C interface, in which a host may have put any byte.
    pub begun: u8,
    pub count: u8,
}

// The list: its cards in order, and the arrivals and departures of the last accepted round, as records one behind the other.
#[repr(C)]
#[derive(Clone, Copy)]
pub struct Presence {
    // Kept: the bytes and their number in `state` are the C interface's.
    pub cards: [u8; CARDS_SIZE],
    pub arrived: [u8; CARDS_SIZE],
    pub departed: [u8; CARDS_SIZE],
    pub state: State,
}

// How many cards came and how many left in a round.
#[derive(Clone, Copy, Debug, PartialEq, Eq)]
pub struct Counts {
    pub arrived: usize,
    pub departed: usize,
}

// Whether the records are whole, and their kinds and bitrates some that there are.
fn are_readable(records: &[u8]) -> bool
    ensures { result ≡ readable_in records.now }
{
    records.len() % RECORD_SIZE == 0 && are_known(records_in(records))
}

impl Presence {
    // Nobody is there, and no round was accepted.
    pub fn empty() -> Presence
        ensures { result ≡ empty_list }
    {
        Presence {
            cards: [0; CARDS_SIZE],
            arrived: [0; CARDS_SIZE],
            departed: [0; CARDS_SIZE],
            state: State {
                number: 0,
                begun: 0,
                count: 0,
            },
        }
    }

    // Whether the list is one that can be: each field in its range, and the cards in order.
    fn is_in_range(&self) -> bool
        ensures { result ≡ list_in_range self.now.state self.now.cards }
    {
        let count = usize::from(self.state.count);
        match self.state.begun {
            0 => count == 0,
            1 => {
                if CARD_LIMIT < count {
                    return false;
                }
                let cards = first_records(&self.cards, count);
                are_in_range(cards) && are_ascending(cards)
            }
            _ => false,
        }
    }

    // Whether the number is not above that of the last accepted round.
    fn is_stale(&self, number: u32) -> bool
        ensures { result ≡ stale_at self.now.state number }
    {
        if self.state.begun == 0 {
            return false;
        }
        number <= self.state.number
    }

    // Refusals in their order: 3, 1, 4, 27.
    fn admit(&self, number: u32, records: &[u8]) -> Result<(), RoundRefusal>
        ensures { result ≡ admission_of self.now.state self.now.cards number records.now }
    {
        if any_over_long(records_in(records)) {
            return Err(Refusal::OverLong.into());
        }
        if !self.is_in_range() {
            return Err(Refusal::OutOfTurn.into());
        }
        if !are_readable(records) {
            return Err(Refusal::BadArgument.into());
        }
        if self.is_stale(number) {
            return Err(RoundRefusal::StaleRound);
        }
        Ok(())
    }

    // An admitted round: who was missed twice leaves, and the records are put into the list, if it takes them.
    fn accept(&mut self, number: u32, records: &[Record]) -> Result<Counts, RoundRefusal>
        requires { (list_in_range self.old.state self.old.cards ≡ Bool.true) × (any long_in records.now ≡ Bool.false) }
        ensures { rounded self.new result ≡ accept_of self.old number records.now }
    {
        let mut list = [0u8; CARDS_SIZE];
        let cards = first_records(&self.cards, usize::from(self.state.count));
        let aged = age(cards, &mut list);
        let n = supersede_all(records, &mut list, aged)?;
        let next = first_records(&list, n);
        let arrived = without(cards, next, &mut self.arrived);
        let departed = without(next, cards, &mut self.departed);
        self.cards = list;
        self.state = State {
            number,
            begun: 1,
            count: n as u8,
        };
        Ok(Counts { arrived, departed })
    }

    // A round, with its number and its records of 20 bytes each: how many came and how many left. A refused round changes nothing.
    pub fn round(&mut self, number: u32, records: &[u8]) -> Result<Counts, RoundRefusal>
        ensures { rounded self.new result ≡ round_of self.old number records.now }
    {
        self.admit(number, records)?;
        self.accept(number, records_in(records))
    }
}
