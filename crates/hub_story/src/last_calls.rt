//! Where the last call of each process stands in a journal. An event that ends a call that waits is told of it: a
//! process has one open call at a time.

ghost use Rattle.std.specs.Prelude.{◌≡◌, ◌<◌, replicate, None};
ghost use Rattle.hub_base.specs.Values.{refused};
ghost use Rattle.hub_story.specs.Told.{may_end};
ghost use Rattle.hub_story.specs.LastCalls.{asked_of, with_call};

use hub_base::{EntryRef, Event, Step, What};

/// How many numbers an entry can give a process.
pub(crate) const PID_NUMBERS: usize = 256;

/// Whether such an event may end a call that waits. Every other one answers the step with which it comes.
fn may_end(what: What) -> bool
    ensures { result ≡ may_end what }
{
    matches!(what, What::Fired { .. } | What::Stalled | What::Cancelled)
}

/// Whether an entry with these events was answered by a fault.
fn is_refused(events: &[Event]) -> bool
    ensures { result ≡ refused events.now }
{
    match events.first() {
        Some(answer) => matches!(answer.what, What::Fault(_)),
        None => false,
    }
}

/// Where the last call of each process stands that was not refused, process 0 first.
pub(crate) type LastCalls = [Option<u32>; PID_NUMBERS];

/// Nobody has called.
pub(crate) fn no_calls() -> LastCalls
    ensures { result ≡ replicate PID_NUMBERS None }
{
    [None; PID_NUMBERS]
}

/// Takes in the entry at this place, which gave these events.
pub(crate) fn note_call(calls: &mut LastCalls, place: u32, entry: &EntryRef<'_>, events: &[Event])
    ensures calls { calls.new ≡ with_call calls.old place (record { entry = entry.now; events = events.now }) }
    ensures pid { entry.now.pid.0 < PID_NUMBERS }
{
    let process = usize::from(entry.pid.0);
    if is_refused(events) {
        return;
    }
    if let Step::Call { .. } = entry.step {
        calls[process] = Some(place);
    }
}

/// The place of the entry that this event of the entry at `place` answers, or whose call it ends.
pub(crate) fn asked_of(calls: &LastCalls, place: u32, event: &Event) -> Option<u32>
    ensures { result ≡ asked_of calls.now place event.now }
{
    if may_end(event.what) {
        calls[usize::from(event.pid.0)]
    } else {
        Some(place)
    }
}
