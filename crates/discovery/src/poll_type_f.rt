// poll_type_f: detect_type_f for each system code of a list. The pending command is the bitrate's code and the system codes, two bytes
// each; the cursor is the number of codes finished.
ghost use Rattle.std.specs.Prelude.{List, ◌∷◌, ◌≡◌, ℕ, ◌+◌, ◌≤◌, length, take, drop};
ghost use Rattle.protocol.specs.Arguments.{system_codes_fit};
ghost use Rattle.protocol.specs.Names.{idm_and_pmm};
ghost use Rattle.stages.specs.Decided.{DecisionRefines, Sends};
ghost use Rattle.stages.specs.Starts.{Starts};
ghost use Rattle.discovery.specs.Decisions.{poll_command, so_far, has_next_of, code_finished, poll_failure, poll_decision, so_far_limit};
ghost use Rattle.discovery.specs.Firsts.{poll_asserted};

use super::rates::{chip_code, type_f_code};
use super::type_f::{FIELD_STAGE, LISTED_IDM_OFFSET, SENSF_REQ_CODE};
use super::{POLL_TYPE_F_KIND, staged, type_f};
use chipset::initiator::ONE_TARGET;
use errors::{Fault, Refusal};
use stages::put::DATA_LIMIT;
use stages::start::Start;
use stages::{Command, Data, Decision, Layout, byte_or};

// The most system codes of a list.
const SYSTEM_CODES: usize = 16;

const LAST_CODE: u8 = 15;

// Each is polled with this request code, in one time slot.
const SYSTEM_CODE_REQUEST: u8 = 0x01;

const ONE_TIME_SLOT: u8 = 0x00;

// What a code adds to the answer: one of two marks, and behind the first IDm and PMm, which stand in the response from byte 4 on.
const CARD_MARK: u8 = 0x01;

const NO_CARD_MARK: u8 = 0x00;

const IDM_AND_PMM: usize = 16;

// The most bytes that the codes before the last add: 17 for each of 15.
const SO_FAR_LIMIT: usize = 255;

// Whole system codes, 1 to 16.
fn is_list(codes: &[u8]) -> bool
    ensures { result ≡ system_codes_fit codes.now }
{
    codes.len() % 2 == 0 && 1 <= codes.len() / 2 && codes.len() / 2 <= SYSTEM_CODES
}

// TX control is read first; the bitrate's code and the system codes are put by.
pub fn poll_type_f(
    bitrate: &[u8],
    codes: &[u8],
    command: &mut [u8; DATA_LIMIT],
) -> Result<Start, Refusal>
    ensures { Starts result command.old command.new (poll_asserted bitrate.now codes.now) }
{
    if !is_list(codes) {
        return Err(Refusal::BadArgument);
    }
    let code = chip_code(bitrate, type_f_code)?;
    staged(POLL_TYPE_F_KIND, &[&[code], codes], command)
}

// The command of a stage: Type F's, its poll with the cursor's code.
pub fn command(stage: u8, cursor: u8, pending: &[u8]) -> Command
    ensures { Sends result pending.now (poll_command stage cursor pending.now) }
{
    let next = type_f::command(stage);
    let Data::Pending = next.bytes else {
        return next;
    };
    let at = 2 * cursor as usize;
    let code = byte_or(pending, 0, 0);
    let high = byte_or(pending, at + 1, 0);
    let low = byte_or(pending, at + 2, 0);
    let poll = [
        ONE_TARGET,
        code,
        SENSF_REQ_CODE,
        high,
        low,
        SYSTEM_CODE_REQUEST,
        ONE_TIME_SLOT,
    ];
    Command::fixed(next.code, next.clock, &poll)
}

// Where a list stands: how many of its codes are finished, the pending command, and the bytes that those codes have added.
#[derive(Clone, Copy)]
pub struct Codes<'a> {
    pub cursor: u8,
    pub pending: &'a [u8],
    pub found: &'a [u8],
}

impl<'a> Codes<'a> {
    // How many found bytes the finished codes have added.
    fn so_far(&self) -> usize
        ensures { (take result self.now.found.now ≡ so_far self.now.cursor self.now.found.now) × (result ≤ length self.now.found.now) × (result ≤ so_far_limit) }
    {
        if self.cursor == 0 {
            0
        } else {
            self.found.len().min(SO_FAR_LIMIT)
        }
    }

    // A code follows the cursor's.
    #[tactic(auto, using(framing::specs::Rules::steps), unfolding(crate::specs::Decisions::has_next_of))]
    fn has_next(&self) -> bool
        ensures { result ≡ has_next_of self.now.cursor self.now.pending.now }
    {
        self.cursor < LAST_CODE && 2 * self.cursor as usize + 5 <= self.pending.len()
    }

    // A code is finished, and adds a mark and a part of the response: the next code follows, or the answer.
    fn finished(&self, mark: u8, start: usize, len: usize) -> Decision
        ensures { (b : List ℕ) → start + len ≤ length b → len ≤ idm_and_pmm → DecisionRefines self.now.found.now b result (code_finished self.now.cursor self.now.pending.now self.now.found.now (mark ∷ take len (drop start b))) }
    {
        let layout = Layout::marked(self.so_far(), mark, start, len);
        if self.has_next() {
            Decision::Next(FIELD_STAGE, self.cursor + 1, layout)
        } else {
            Decision::Done(layout)
        }
    }

    // What follows a command that failed: no card is a mark, any other fault ends the list.
    pub fn failed(&self, fault: Fault) -> Decision
        ensures { (b : List ℕ) → DecisionRefines self.now.found.now b result (poll_failure self.now.cursor self.now.pending.now self.now.found.now fault) }
    {
        match fault {
            Fault::NoCard => self.finished(NO_CARD_MARK, 0, 0),
            _ => Decision::RefusedAfter(fault, self.cursor),
        }
    }

    // What follows a response: what Type F's stage decides, but for its ends.
    pub fn decided(&self, stage: u8, response: &[u8]) -> Decision
        ensures { DecisionRefines self.now.found.now response.now result (poll_decision stage self.now.cursor self.now.pending.now self.now.found.now response.now) }
    {
        let decision = type_f::decided(stage, response);
        match decision {
            Decision::Done(_) | Decision::Part(_, _) => {
                self.finished(CARD_MARK, LISTED_IDM_OFFSET, IDM_AND_PMM)
            }
            Decision::Refused(fault) => self.failed(fault),
            _ => decision,
        }
    }
}
