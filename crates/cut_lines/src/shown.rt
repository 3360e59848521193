// What the last line of a list prints, as far as a fault is told by it.
#![tactic(auto, using(errors::specs::Rules::picks), unfolding(errors::specs::Choice::pick, cut_script::specs::Bench::same_numbered))]

ghost use Rattle.std.specs.Prelude.{◌≡◌};
ghost use Rattle.std.proofs.Math.Option.{some};
ghost use Rattle.cut_script.specs.Bench.{same_numbered, same_refusal};
ghost use Rattle.cut_lines.specs.Shown.{shown_in, refused_by, at_once_by};

use engine::running::Output;
use errors::{CARD_STATUS_NUMBER, Numbered, STATUS_NUMBER};

// The refusal that an output is, a list's without the number of codes finished.
pub(crate) fn refusal_of(output: Output) -> Option<Numbered>
    ensures { shown_in result ≡ refused_by output }
{
    match output {
        Output::Failed(fault) => Some(Numbered::from(fault)),
        Output::FailedAfter(fault, _) => Some(Numbered::from(fault)),
        Output::Refused(refusal) => Some(Numbered::from(refusal)),
        _ => None,
    }
}

// The same refusal as another.
pub(crate) fn is(shown: Option<Numbered>, fault: Numbered) -> bool
    ensures { result ≡ same_refusal (some fault) (shown_in shown) }
{
    match shown {
        Some(numbered) => same(fault, numbered),
        None => false,
    }
}

// The same number, of 15 the same status, of 20 the same two flags.
// Kept: not the derived equality: of a number other than 15 and 20 the status bytes count for nothing.
fn same(a: Numbered, b: Numbered) -> bool
    ensures { result ≡ same_numbered a b }
{
    if a.number != b.number {
        return false;
    }
    if a.number == STATUS_NUMBER {
        return a.status == b.status;
    }
    if a.number == CARD_STATUS_NUMBER {
        if a.status == b.status {
            return a.status2 == b.status2;
        }
        return false;
    }
    true
}

// Refused at once.
pub(crate) fn is_at_once(output: Output) -> bool
    ensures { result ≡ at_once_by output }
{
    matches!(output, Output::Refused(_))
}
