// The response to a list of targets, as Type A's and Type B's discoveries read it.
#![tactic(auto, using(stages::specs::Laws::decided), unfolding(errors::specs::Choice::pick, stages::specs::Stages::with_length, crate::specs::Decisions::by_target))]

ghost use Rattle.std.specs.Prelude.{List, ℕ, ◌≤◌, length};
ghost use Rattle.std.specs.Fn.{FnOnceReturnsAt, FnOnceTakesAt};
ghost use Rattle.stages.specs.Stages as stages;
ghost use Rattle.stages.specs.Decided.{DecisionRefines};
ghost use Rattle.discovery.specs.Decisions.{by_target};

use errors::Fault;
use stages::{Decision, byte_or};

// What follows a list: `none` where it has no target, nothing where it is under `need` bytes, and else what `target` makes of it.
pub(crate) fn by_target<F: FnOnce(&[u8]) -> Decision>(
    response: &[u8],
    need: usize,
    none: Decision,
    target: F,
) -> Decision
    requires { need ≤ length response.now → FnOnceTakesAt F.FnOnce target response.now }
    ensures { (f : List ℕ) (x y : stages.Decision) → DecisionRefines f response.now none x → ((r : Decision) → need ≤ length response.now → FnOnceReturnsAt F.FnOnce target response.now r → DecisionRefines f response.now r y) → DecisionRefines f response.now result (by_target need x y response.now) }
{
    if byte_or(response, 0, 0) == 0 {
        return none;
    }
    if response.len() < 2 {
        return Decision::Refused(Fault::ShortResponse);
    }
    if response.len() < need {
        return Decision::Nothing;
    }
    target(response)
}
