// Decisions on a response: its status, its length, and an answer that is a part of it.
#![tactic(auto, using(errors::specs::Rules::picks), unfolding(errors::specs::Choice::pick, crate::specs::Responses::status_of, crate::specs::Responses::with_length, crate::specs::Responses::with_status, crate::specs::Responses::with_masked_status))]

ghost use Rattle.std.specs.Prelude.{◌≡◌, List, ℕ, ◌+◌, ◌≤◌, length, take, drop};
ghost use Rattle.protocol.specs.Scripts.{Answer, done};
ghost use Rattle.stages.specs.Decided.{AnswerRefines};
ghost use Rattle.chipset.specs.Responses.{status_of, with_length, with_status, with_masked_status};

use super::err;
use super::initiator::MORE_BIT;
use errors::Fault;
use stages::{Decision, byte_or};

// A part of the response and nothing behind it.
pub fn part(start: usize, len: usize) -> Decision
    ensures { (bs : List ℕ) → start + len ≤ length bs → AnswerRefines bs result (done (take len (drop start bs))) }
{
    Decision::Part(start, len)
}

// The response from `start` on.
pub fn from(response: &[u8], start: usize) -> Decision
    ensures { AnswerRefines response.now result (done (drop start response.now)) }
{
    if start <= response.len() {
        Decision::Part(start, response.len() - start)
    } else {
        Decision::Part(0, 0)
    }
}

// What is decided where the response has `n` bytes.
pub fn with_length(response: &[u8], n: usize, decision: Decision) -> Decision
    ensures { (a : Answer ℕ) → (n ≤ length response.now → AnswerRefines response.now decision a) → AnswerRefines response.now result (with_length response.now n a) }
{
    if response.len() < n {
        Decision::Refused(Fault::ShortResponse)
    } else {
        decision
    }
}

// The status, the first byte, is 0; else its fault. That of an empty response is FF.
pub fn status(response: &[u8]) -> Result<(), Fault>
    ensures { result ≡ status_of response.now }
{
    match byte_or(response, 0, err::NO_DATA) {
        0 => Ok(()),
        status => Err(Fault::Status(status)),
    }
}

// What is decided where the status is 0; else that fault.
pub fn with_status(response: &[u8], decision: Decision) -> Decision
    ensures { (a : Answer ℕ) → (1 ≤ length response.now → AnswerRefines response.now decision a) → AnswerRefines response.now result (with_status response.now a) }
{
    match status(response) {
        Ok(()) => decision,
        Err(fault) => Decision::Refused(fault),
    }
}

// The same of a status that is the low six bits of the first byte.
pub fn with_masked_status(response: &[u8], decision: Decision) -> Decision
    ensures { (a : Answer ℕ) → (1 ≤ length response.now → AnswerRefines response.now decision a) → AnswerRefines response.now result (with_masked_status response.now a) }
{
    let Some(first) = response.first() else {
        return Decision::Refused(Fault::Status(err::NO_DATA));
    };
    match *first % MORE_BIT {
        0 => decision,
        status => Decision::Refused(Fault::Status(status)),
    }
}
