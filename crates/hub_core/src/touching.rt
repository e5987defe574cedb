//! Which port a step may have changed.

ghost use Rattle.std.specs.Prelude.{◌≡◌};
ghost use Rattle.hub_core.specs.Prelude.{found_closed, port_changed_by, port_touched_by};

use hub_base::{Outcome, Port, Step, StepRef, What};

/// The one port whose channel a step with this answer may have changed: the port that was made,
/// closed or opened again, or that of the case that fired. `None` for any other answer, as of a call that waits or
/// takes its default, of an exit and of a fault.
pub fn port_touched(step: &StepRef<'_>, answer: &What) -> Option<Port>
    ensures { result ≡ port_touched_by step.now answer.now }
{
    match (step, answer) {
        (Step::Make(_), What::Made(port)) => Some(*port),
        (Step::Call { cases, .. }, What::Fired { case, .. }) => {
            let case = cases.as_slice().get(usize::from(*case))?;
            Some(case.port())
        }
        (Step::Close(port), What::Done) => Some(*port),
        (Step::Reopen { port, .. }, What::Done) => Some(*port),
        _ => None,
    }
}

/// Whether a case fired that found its port closed.
fn found_closed(answer: &What) -> bool
    ensures { result ≡ found_closed answer.now }
{
    matches!(
        answer,
        What::Fired {
            outcome: Outcome::Drained | Outcome::Closed,
            ..
        }
    )
}

/// The one port whose channel a step with this answer changed: as `port_touched`, but `None` where a
/// case fired that found its port closed, so a send there or a receive from it when drained.
pub fn port_changed(step: &StepRef<'_>, answer: &What) -> Option<Port>
    ensures { result ≡ port_changed_by step.now answer.now }
{
    if found_closed(answer) {
        None
    } else {
        port_touched(step, answer)
    }
}
