//! What the events of one step tell: how many calls stalled, how many faults there are, and which
//! values were received, and on which port.

ghost use Rattle.std.specs.Prelude.{◌≡◌, ◌≤◌, length};
ghost use Rattle.std.specs.List.{sum_by};
ghost use Rattle.hub_runner.specs.Prelude.{how_many, is_fault, is_stalled, most_got, number_told, port_touched};

use hub_base::{Event, MOST_EVENTS, Outcome, Port, StepRef, What};
use hub_core::port_touched;

/// The number that the process is told it got, 0 where it got none.
fn number_told(event: &Event) -> u64
    ensures { result ≡ number_told event.now }
{
    match event.what {
        What::Fired {
            outcome: Outcome::Got(value),
            ..
        } => value.as_num().unwrap_or(0),
        _ => 0,
    }
}

/// What some events tell.
#[derive(Drop)]
pub(crate) struct Told {
    /// The sum of the values got.
    pub(crate) got: u128,
    /// How many calls stalled.
    pub(crate) stalled: u32,
    /// How many faults there are.
    pub(crate) faults: u32,
}

/// What the events of a step tell, in one pass.
pub(crate) fn tell(events: &[Event]) -> Told
    requires few { length events.now ≤ MOST_EVENTS }
    ensures got { result.got ≡ sum_by number_told events.now }
    ensures stalled { result.stalled ≡ how_many is_stalled events.now }
    ensures faults { result.faults ≡ how_many is_fault events.now }
    ensures fits { result.got ≤ most_got }
    ensures bounds { (result.stalled ≤ MOST_EVENTS) × (result.faults ≤ MOST_EVENTS) }
{
    let mut told = Told {
        got: 0,
        stalled: 0,
        faults: 0,
    };
    for event in events {
        told.got += u128::from(number_told(event));
        told.stalled += u32::from(event.what.is_stalled());
        told.faults += u32::from(matches!(event.what, What::Fault(_)));
    }
    told
}

/// The port that the answer of a step names; the answer is the first of its events.
pub(crate) fn port_named(step: &StepRef<'_>, events: &[Event]) -> Option<Port>
    ensures { result ≡ port_touched step.now events.now }
{
    let answer = events.first()?;
    port_touched(step, &answer.what)
}
