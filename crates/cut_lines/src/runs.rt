// Stretches of a script, run from a fresh session.
#![tactic(auto, using(errors::specs::Rules::picks), unfolding(errors::specs::Choice::pick))]

ghost use Rattle.std.specs.Prelude.{◌≡◌, ℕ, ◌-◌, ◌<◌, ◌≤◌, true, List, length};
ghost use Rattle.std.proofs.Math.Option.{some};
ghost use Rattle.std.proofs.Math.Seq.{slice};
ghost use Rattle.bench_input.specs.Readings.{input_in};
ghost use Rattle.bench_input.specs.Table.{Said};
ghost use Rattle.cut_script.specs.Answer.{line_count_limit};
ghost use Rattle.cut_script.specs.Bench.{is_opening, bench};
ghost use Rattle.cut_script.specs.Cut.{Shortest};
ghost use Rattle.cut_lines.specs.Shown.{shown_in};
ghost use Rattle.cut_lines.specs.Runs.{is_call, Acts, Skips, Overtakes, Holds, RunShows, StretchTried, last_shown};

use super::entries::Entry;
use super::shown;
use bench_input::{Input, slice};
use bench_session::BUFFER_SIZE;
use calls::NO_CALL_KIND;
use calls::start::OPEN_CALL;
use engine::running::{Core, Output};
use engine::session::{Session, Step};
use errors::Numbered;

fn is_opening(input: Option<Input>) -> bool
    ensures { (b : List ℕ) → is_opening (input_in b input) ≡ result }
{
    matches!(input, Some(Input::Call(OPEN_CALL, _, _)))
}

fn is_call(input: Option<Input>) -> bool
    ensures { result ≡ is_call input }
{
    matches!(input, Some(Input::Call(_, _, _)))
}

// A call while another runs is refused at once, and so needs no step.
fn is_skipped(core: Core, input: Option<Input>) -> bool
    ensures { result ≡ true → Skips core input }
{
    if is_call(input) {
        core.call.kind != NO_CALL_KIND
    } else {
        false
    }
}

// A line's step.
fn act(session: Session, entry: Entry, bytes: &[u8]) -> Step
    ensures { Acts session (input_in (slice entry.from entry.to bytes.now) entry.input) result }
{
    let mut buffer = [0u8; BUFFER_SIZE];
    bench_session::step(
        session,
        entry.input,
        slice(bytes, entry.from, entry.to),
        &mut buffer,
    )
}

// A further opening is taken, behind line `stop`.
fn is_overtaken(stop: usize, m: usize, input: Option<Input>, output: Output) -> bool
    ensures { result ≡ true → Overtakes stop m input output }
{
    stop < m && is_opening(input) && !shown::is_at_once(output)
}

// What the last line of the stretch from line `from` on shows. Nothing where an opening behind line `stop` is taken before: the stretch from
// there on does the same.
fn run(entries: &[Entry], from: usize, stop: usize, bytes: &[u8]) -> Option<Numbered>
    requires { from < length entries.now }
    ensures { (xs : List Said) → Holds entries.now bytes.now xs → RunShows stop xs from result }
{
    let last = entries.len() - 1;
    let mut session = Session::fresh();
    for m in from..last {
        let entry = entries[m];
        if is_skipped(session.core, entry.input) {
            continue;
        }
        let step = act(session, entry, bytes);
        if is_overtaken(stop, m, entry.input, step.output) {
            return None;
        }
        session = step.session;
    }
    let step = act(session, entries[last], bytes);
    shown::refusal_of(step.output)
}

// What the last line of the whole script shows.
pub(crate) fn whole(entries: &[Entry], bytes: &[u8]) -> Option<Numbered>
    requires { 0 < length entries.now }
    ensures { (xs : List Said) → Holds entries.now bytes.now xs → shown_in result ≡ last_shown xs 0 }
{
    run(entries, 0, entries.len(), bytes)
}

// The stretch from line i on shows the fault. It need not be run where it begins with no opening and has a line more.
fn shows(entries: &[Entry], i: usize, bytes: &[u8], fault: Numbered) -> bool
    requires { i < length entries.now }
    ensures { (xs : List Said) → Holds entries.now bytes.now xs → StretchTried xs i fault result }
{
    if i + 1 < entries.len() && !is_opening(entries[i].input) {
        return false;
    }
    shown::is(run(entries, i, i, bytes), fault)
}

// The line at which the shortest stretch starts: the script's last lines are tried one after the other, and its first one is left.
pub(crate) fn shortest(entries: &[Entry], bytes: &[u8], fault: Numbered) -> usize
    requires { 0 < length entries.now }
    ensures upper_bound { result < length entries.now }
    ensures shortest { (xs : List Said) → Holds entries.now bytes.now xs → last_shown xs 0 ≡ some fault → Shortest bench xs (length xs - result) }
{
    for i in (1..entries.len()).rev() {
        if shows(entries, i, bytes, fault) {
            return i;
        }
    }
    0
}
