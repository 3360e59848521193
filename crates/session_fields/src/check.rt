// The outcomes counted, and what an outcome must not be.
use calls::{LAST_KIND, LAST_STAGE};
use engine::books;
use engine::call::PAUSE_PHASE;
use engine::running::{BUFFER_NEED, Core, FOUND_LIMIT, Output};
use engine::session::Session;
use errors::Numbered;
use exchange::Exchange;
use stages::put::DATA_LIMIT;
use std::io::Result;

const OUTCOMES: usize = 272;

// The outcomes of events and of calls by number, then: a session out of range not refused with 1, a short buffer with an outcome but 1
// and 2, a refusal 1 or 2 that changed the session, and an outcome of more bytes than the buffer has.
#[derive(Clone, Copy, Debug, PartialEq, Eq)]
pub struct Tally {
    events: [u64; OUTCOMES],
    calls: [u64; OUTCOMES],
    unfit: u64,
    short: u64,
    changed: u64,
    long: u64,
}

// The number of a refusal or a fault.
// Kept: each type's own From gives the number; this makes it an index.
fn refusal_number(refusal: impl Into<Numbered>) -> usize {
    usize::from(refusal.into().number)
}

// An outcome's number: a refusal's is its number in document 01, others come behind them.
fn outcome_number(output: Output) -> usize {
    match output {
        Output::Ack | Output::Command(_) => 256,
        Output::Read(_) => 257,
        Output::Drain => 258,
        Output::Pause(_) => 259,
        Output::Done(_) => 260,
        Output::Type1(_) => 261,
        Output::Nothing => 262,
        Output::UidAndAts(_, _, _) => 263,
        Output::Failed(fault) | Output::FailedAfter(fault, _) => refusal_number(fault),
        Output::Refused(refusal) => refusal_number(refusal),
    }
}

// How many bytes of the buffer are the output.
fn length_of(output: Output) -> usize {
    match output {
        Output::Ack => 6,
        Output::Command(n) | Output::Done(n) | Output::Type1(n) | Output::UidAndAts(n, _, _) => n,
        _ => 0,
    }
}

fn core_in_range(core: Core) -> bool {
    let call = core.call;
    core.command <= DATA_LIMIT
        && core.found <= FOUND_LIMIT
        && core.exchange.phase <= Exchange::DRAINING_PHASE
        && call.kind <= LAST_KIND
        && call.stage <= LAST_STAGE
        && call.phase <= PAUSE_PHASE
}

// Every field of a session is in its range.
fn is_in_range(session: &Session) -> bool {
    let numbers = session.books;
    numbers[books::OPENED] <= books::OPEN
        && numbers[books::MODE] <= books::PADDED_MODE
        && numbers[books::CALLER] <= books::LAST_CALLER
        && core_in_range(session.core)
}

// All but the bytes of the command and those that were found.
// Kept: it leaves two fields out, so the derived `==` of a session says more.
fn same(before: &Session, after: &Session) -> bool {
    before.books == after.books && before.frames == after.frames && before.core == after.core
}

// Refused with 1 or 2.
fn is_early(kind: usize) -> bool {
    matches!(kind, 1 | 2)
}

fn one_more_if(n: u64, more: bool) -> u64 {
    n.wrapping_add(u64::from(more))
}

fn line(rt: &impl Print, text: &str, n: u64) -> Result<()> {
    println!(rt; "{text}{n}")
}

// The other outcomes by their names, from 256 on.
const OUTCOME_NAMES: [&str; 8] = [
    "write ",
    "read ",
    "drain ",
    "pause ",
    "done ",
    "done type1 ",
    "none ",
    "done uid ats ",
];

fn outcomes(rt: &impl Print, counts: &[u64; OUTCOMES]) -> Result<()> {
    for (count, name) in counts[256..].iter().zip(&OUTCOME_NAMES) {
        line(rt, name, *count)?;
    }
    Ok(())
}

fn refusals(rt: &impl Print, counts: &[u64; OUTCOMES]) -> Result<()> {
    for (k, count) in counts.iter().enumerate().skip(1).take(22) {
        println!(rt; "refused {k} {count}")?;
    }
    Ok(())
}

fn refusals_met(rt: &impl Print, counts: &[u64; OUTCOMES]) -> Result<()> {
    for (k, count) in counts.iter().enumerate().skip(1).take(6) {
        let met = u64::from(*count > 0);
        println!(rt; "calls refused {k}, met {met}")?;
    }
    Ok(())
}

impl Tally {
    pub(crate) fn empty() -> Tally {
        Tally {
            events: [0; OUTCOMES],
            calls: [0; OUTCOMES],
            unfit: 0,
            short: 0,
            changed: 0,
            long: 0,
        }
    }

    // Counts an outcome, and what is wrong with it.
    // Kept: what was tried and what came of it, which only this function has together.
    pub(crate) fn check(
        &mut self,
        is_call: bool,
        before: &Session,
        after: &Session,
        output: Output,
        size: usize,
    ) {
        let kind = outcome_number(output);
        let early = is_early(kind);
        let unfit = !is_in_range(before) && kind != 1;
        let changed = early && !same(before, after);
        let counts = if is_call {
            &mut self.calls
        } else {
            &mut self.events
        };
        if let Some(count) = counts.get_mut(kind) {
            *count = count.wrapping_add(1);
        }
        self.unfit = one_more_if(self.unfit, unfit);
        self.short = one_more_if(self.short, size < BUFFER_NEED && !early);
        self.changed = one_more_if(self.changed, changed);
        self.long = one_more_if(self.long, length_of(output) > size);
    }

    // One line for each outcome of an event, with its count; of the calls, whose list grows, how many thousands were accepted and which
    // refusals were met; and one for each kind of violation.
    pub(crate) fn print(&self, rt: &impl Print) -> Result<()> {
        outcomes(rt, &self.events)?;
        refusals(rt, &self.events)?;
        line(rt, "thousands of calls accepted ", self.calls[256] / 1000)?;
        refusals_met(rt, &self.calls)?;
        line(rt, "out of range and not refused with 1: ", self.unfit)?;
        line(rt, "short buffer and not refused with 1 or 2: ", self.short)?;
        line(rt, "refused with 1 or 2 and changed: ", self.changed)?;
        line(rt, "more bytes than the buffer: ", self.long)
    }
}
