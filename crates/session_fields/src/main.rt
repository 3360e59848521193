// Sessions with any fields, each handed a call or an event with a buffer of some length: what comes of it, counted.
#![tactic(auto)]

mod check;
mod draw;
mod made;

use check::Tally;
use std::io::Result;

const SESSIONS: u64 = 50000;

// One session, one call or event, and what was wrong with the outcome.
fn turn(seed: u64, tally: &mut Tally) {
    let session = draw::session(seed);
    let size = draw::size(seed);
    let step = made::handed(session, seed, size);
    tally.check(
        draw::is_call(seed),
        &session,
        &step.session,
        step.output,
        size,
    );
}

fn main(rt: HostRuntime) -> Result<()> {
    let mut tally = Tally::empty();
    let mut seed = 1;
    for _ in 0..SESSIONS {
        turn(seed, &mut tally);
        seed = draw::next_seed(seed);
    }
    tally.print(&rt)
}
