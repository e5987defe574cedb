//! Who has left: the exits that were done, until their processes are started again.

ghost use Rattle.std.specs.Prelude.{◌≡◌, not, IfOk, OnOk};
ghost use Rattle.std.specs.List.{filter};
ghost use Rattle.hub_story.specs.Leavers.{comes_back, is_told_to, leavers, leaves, started, with_leaver};

use crate::Told;
use hub_base::{Pid, Step, StepRef, What};
use hub_core::{CaseRoom, ShortEntries};
use std::alloc::{AllocError, Global};

/// Whether the event says that an exit was done.
pub fn leaves(entries: &ShortEntries, told: &Told) -> bool
    ensures { result ≡ leaves entries.now told.now }
{
    if !matches!(told.event.what, What::Done) {
        return false;
    }
    let mut room = CaseRoom::new();
    match entries.get(told.asked as usize, &mut room) {
        Some(entry) => matches!(entry.step, Step::Exit),
        None => false,
    }
}

/// The process that the step starts again.
fn started(step: &StepRef<'_>) -> Option<Pid>
    ensures { result ≡ started step.now }
{
    match step {
        Step::Start(pid) => Some(*pid),
        _ => None,
    }
}

/// The process of which the event says that it was started again.
pub fn comes_back(entries: &ShortEntries, told: &Told) -> Option<Pid>
    ensures { result ≡ comes_back entries.now told.now }
{
    if !matches!(told.event.what, What::Done) {
        return None;
    }
    let mut room = CaseRoom::new();
    match entries.get(told.asked as usize, &mut room) {
        Some(entry) => started(&entry.step),
        None => None,
    }
}

/// Takes the exits of this process out.
fn take_out(left: &mut Vec<Told>, pid: Pid)
    ensures { left.new.items ≡ filter (λ t. not (is_told_to pid.0 t)) left.old.items }
{
    left.retain(|told| told.event.pid.0 != pid.0);
}

/// Takes in who leaves or comes back by the next event, if anybody does.
pub(crate) fn note_leaver(
    left: &mut Vec<Told>,
    entries: &ShortEntries,
    told: &Told,
) -> Result<(), AllocError>
    ensures { OnOk result (left.new.items ≡ with_leaver entries.now left.old.items told.now) }
{
    if leaves(entries, told) {
        left.push(*told)?;
    } else if let Some(pid) = comes_back(entries, told) {
        take_out(left, pid);
    }
    Ok(())
}

/// The exits of those who have left in the end, in order.
pub(crate) fn leavers_of(
    alloc: Global,
    entries: &ShortEntries,
    told: &[Told],
) -> Result<Vec<Told>, AllocError>
    ensures { IfOk result (λ left. left.items ≡ leavers entries.now told.now) }
{
    let mut left = Vec::new(alloc);
    for told in told {
        note_leaver(&mut left, entries, told)?;
    }
    Ok(left)
}
