//! Who is outside the hub, and since which step.

ghost use Rattle.std.specs.Prelude.{◌≡◌, ◌<◌, ◌^◌, ◌&&◌, ℕ, List, None, length, not, slice_index_or, IfOk};
ghost use Rattle.hub_story.specs.declared.told.Told.{Told as Event};
ghost use Rattle.std.specs.List.{list_any};
ghost use Rattle.hub_story.specs.Leavers.{is_told_to, leavers};
ghost use Rattle.hub_story.specs.Outside.{last_of, outside};

use crate::Told;
use crate::last_calls::{PID_NUMBERS, no_calls};
use hub_base::Pid;
use hub_core::ShortEntries;
use std::alloc::{AllocError, Global};

/// A process that has neither exited nor waits.
#[derive(Clone, Copy, Debug, PartialEq, Eq)]
pub struct Outsider {
    /// The process.
    pub pid: Pid,
    /// The place of its last step, if it has made one.
    pub last: Option<u32>,
}

/// Where the last step of each process stands.
fn last_steps(entries: &ShortEntries) -> [Option<u32>; PID_NUMBERS]
    requires { length entries.now < 2 ^ 32 }
    ensures { (n : ℕ) → slice_index_or result n None ≡ last_of n 0 None entries.now }
{
    let mut last = no_calls();
    for place in 0..entries.len() {
        if let Some(pid) = entries.pid_at(place) {
            last[usize::from(pid.0)] = Some(place as u32);
        }
    }
    last
}

/// Whether one of these is told to the process.
pub(crate) fn any_told_to(pid: u8, told: &[Told]) -> bool
    ensures { result ≡ list_any (is_told_to pid) told.now }
{
    told.iter().any(|told| told.event.pid.0 == pid)
}

/// Whether the process is not among these who left or wait.
fn is_outside(left: &[Told], waiting: &[Told], pid: u8) -> bool
    ensures { result ≡ (not (list_any (is_told_to pid) left.now) && not (list_any (is_told_to pid) waiting.now)) }
{
    !any_told_to(pid, left) && !any_told_to(pid, waiting)
}

/// Of so many processes those that are not among these who left or wait.
pub fn outside_of(
    alloc: Global,
    entries: &ShortEntries,
    left: &[Told],
    waiting: &[Told],
    procs: u8,
) -> Result<Vec<Outsider>, AllocError>
    requires few { length entries.now < 2 ^ 32 }
    ensures { (told : List Event) → left.now ≡ leavers entries.now told
        → IfOk result (λ all. all.items ≡ outside entries.now told waiting.now procs) }
{
    let last = last_steps(entries);
    let mut all = Vec::new(alloc);
    for pid in 0..procs {
        if is_outside(left, waiting, pid) {
            all.push(Outsider {
                pid: Pid(pid),
                last: last[usize::from(pid)],
            })?;
        }
    }
    Ok(all)
}
