//! What a process is answered, and where that is not what a replay answers it.

ghost use Rattle.std.specs.Prelude.{◌≡◌, ◌↔◌, true, IfOk, IsNone, IsTrue};
ghost use Rattle.hub_trials.specs.Answers.{is_answer_to, answers_to};

use hub_base::{Counts, Event, Pid};
use std::alloc::{AllocError, Global};

fn is_answer_to(pid: Pid, event: &Event) -> bool
    ensures { result ≡ is_answer_to pid event.now }
{
    event.pid == pid && !event.what.is_parked()
}

/// What the process is told among these events, but for `Parked`, in order.
fn answers_to(alloc: Global, pid: Pid, events: &[Event]) -> Result<Vec<Event>, AllocError>
    ensures { IfOk result (λ answers. answers.items ≡ answers_to pid events.now) }
{
    events
        .iter()
        .copied()
        .filter(|event| is_answer_to(pid, event))
        .collect(alloc)
}

fn are_equal(one: &[Event], other: &[Event]) -> bool
    ensures { IsTrue result ↔ (one.now ≡ other.now) }
{
    one == other
}

/// The first place where one list has another event than the other, or none.
fn first_difference(one: &[Event], other: &[Event]) -> Option<usize>
    ensures { IsNone result ↔ (one.now ≡ other.now) }
{
    if are_equal(one, other) {
        return None;
    }
    let differs = one
        .iter()
        .zip(other)
        .position(|(left, right)| left != right);
    Some(differs.unwrap_or(one.len().min(other.len())))
}

/// Whether both saw the same.
pub fn saw_the_same(one: &[Option<Counts>], other: &[Option<Counts>]) -> bool
    ensures { result ≡ true → one.now ≡ other.now }
{
    one == other
}

/// The first place where what the process was told is not what these events answer it. `None` only
/// where it was told just that.
pub fn first_wrong(
    alloc: Global,
    pid: Pid,
    told: &[Event],
    events: &[Event],
) -> Result<Option<usize>, AllocError>
    ensures { IfOk result (λ place. IsNone place ↔ (told.now ≡ answers_to pid events.now)) }
{
    let answers = answers_to(alloc, pid, events)?;
    Ok(first_difference(told, answers.as_slice()))
}
