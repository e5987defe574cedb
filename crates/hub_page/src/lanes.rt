//! What the lanes ask, are told and wait. A lane is a process's number; the number of processes stands for all processes that there
//! are not.

ghost use Rattle.std.specs.Prelude.{◌≡◌, ◌≤◌, ◌<◌, ◌+◌, ℕ, count_by, is_some, length, OnOk, slice_set};
ghost use Rattle.hub_page.specs.Block.{count_of};
ghost use Rattle.hub_page.specs.Lanes.{is_closed, is_trouble, is_trouble_in, lane_of, one_if};
ghost use Rattle.hub_page.specs.ParkedCalls.{call_of};

use crate::parked_calls::ParkedCalls;
use hub_base::{Outcome, Pid, What};
use hub_story::{Told, count_one};
use std::alloc::AllocError;

/// The lane of a process, where there are so many.
pub(crate) fn lane_of(procs: u8, pid: Pid) -> usize
    ensures value { result ≡ lane_of procs pid }
    ensures few { result ≤ procs }
{
    usize::from(pid.0.min(procs))
}

/// Whether a send met a closed channel.
fn is_closed(outcome: Outcome) -> bool
    ensures { result ≡ is_closed outcome }
{
    matches!(outcome, Outcome::Closed)
}

/// Whether a step was stalled, a fault, or closed.
fn is_trouble(what: What) -> bool
    ensures { result ≡ is_trouble what }
{
    match what {
        What::Fired { outcome, .. } => is_closed(outcome),
        What::Stalled | What::Fault(_) => true,
        _ => false,
    }
}

/// Counts it if this is trouble.
fn count_trouble(troubles: &mut Vec<u64>, procs: u8, told: &Told) -> Result<(), AllocError>
    requires { length troubles.old.items ≡ procs + 1 }
    ensures counted { OnOk result ((lane : ℕ) → lane ≤ procs →
        count_of troubles.new.items lane ≡ count_of troubles.old.items lane + one_if (is_trouble_in procs lane told.now)) }
    ensures whole { length troubles.new.items ≡ procs + 1 }
{
    if !is_trouble(told.event.what) {
        return Ok(());
    }
    count_one(troubles, lane_of(procs, told.event.pid))
}

/// Counts all that is trouble of these.
pub(crate) fn count_troubles(
    troubles: &mut Vec<u64>,
    procs: u8,
    came: &[Told],
) -> Result<(), AllocError>
    requires { length troubles.old.items ≡ procs + 1 }
    ensures counted { OnOk result ((lane : ℕ) → lane ≤ procs →
        count_of troubles.new.items lane ≡ count_of troubles.old.items lane + count_by (is_trouble_in procs lane) came.now) }
    ensures whole { length troubles.new.items ≡ procs + 1 }
{
    for told in came {
        count_trouble(troubles, procs, told)?;
    }
    Ok(())
}

/// Counts one step of the lane, if a call of it waits.
fn count_wait(waited: &mut Vec<u64>, parked: &ParkedCalls, lane: usize) -> Result<(), AllocError>
    requires { lane < length waited.old.items }
    ensures counted { OnOk result (waited.new.items
        ≡ slice_set waited.old.items lane (count_of waited.old.items lane + one_if (is_some (call_of parked.now lane)))) }
    ensures length { length waited.new.items ≡ length waited.old.items }
{
    match parked.call(lane) {
        Some(_) => count_one(waited, lane),
        None => Ok(()),
    }
}

/// Counts one step of each lane of which a call waits.
pub(crate) fn count_waits(
    waited: &mut Vec<u64>,
    procs: u8,
    parked: &ParkedCalls,
) -> Result<(), AllocError>
    requires { length waited.old.items ≡ procs + 1 }
    ensures counted { OnOk result ((lane : ℕ) → lane ≤ procs →
        count_of waited.new.items lane ≡ count_of waited.old.items lane + one_if (is_some (call_of parked.now lane))) }
    ensures whole { length waited.new.items ≡ procs + 1 }
{
    for lane in 0..usize::from(procs) + 1 {
        count_wait(waited, parked, lane)?;
    }
    Ok(())
}
