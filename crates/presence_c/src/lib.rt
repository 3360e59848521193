// The C interface of the list of present cards, as include/presence.h describes it: the list is updated in place.
#![tactic(auto)]

pub mod outcome;

ghost use Rattle.std.specs.Prelude.{◌≡◌};
ghost use Rattle.presence_list.specs.Steps.{empty_list};
ghost use Rattle.presence_c.specs.Outcomes.{report, report_for};

use outcome::Outcome;
use presence_list::list::Presence;

// Nobody is there, and no round was accepted.
#[unsafe(no_mangle)]
pub extern "C" fn presence_empty() -> Presence
    ensures { result ≡ empty_list }
{
    Presence::empty()
}

// A round, with its number and its records of 20 bytes each.
#[unsafe(no_mangle)]
pub extern "C" fn presence_round(list: &mut Presence, number: u32, records: &[u8]) -> Outcome
    ensures { report list.new result ≡ report_for list.old number records.now }
{
    Outcome::from(list.round(number, records))
}
