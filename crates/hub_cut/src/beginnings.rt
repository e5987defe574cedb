//! What a chapter begins with.

ghost use Rattle.std.specs.Prelude.{◌≡◌, ◌≤◌, ◌↔◌, ◌++◌, IfErr, IsTrue, OnOk, Some, List, length, slice_get};
ghost use Rattle.hub_base.specs.Entry.{Entry};
ghost use Rattle.hub_cut.specs.Faults.{IsOtherHead, IsOtherBeginning};

use crate::ChainFault;
use crate::fault::line_of;
use hub_base::{EntryRef, Head, MOST_BYTES, Step, StepRef};
use hub_core::{CaseRoom, ShortEntries};

/// Whether a chapter's head is that of the chapter before.
pub(crate) fn has_head(chapter: Head, head: Head) -> Result<(), ChainFault>
    ensures ok { OnOk result (chapter ≡ head) }
    ensures err { IfErr result (IsOtherHead chapter head) }
{
    if chapter.edition != head.edition {
        return Err(ChainFault::OtherEdition);
    }
    if chapter.procs != head.procs {
        return Err(ChainFault::OtherProcs);
    }
    Ok(())
}

/// Whether both are one step.
#[tactic(auto, using(crate::proofs::Entries::decides_cases))]
fn is_same_step(step: &StepRef<'_>, other: &StepRef<'_>) -> bool
    ensures { IsTrue result ↔ (step.now ≡ other.now) }
{
    match (step, other) {
        (Step::Make(cap), Step::Make(given)) => cap == given,
        (
            Step::Call {
                cases,
                default,
                word,
            },
            Step::Call {
                cases: given,
                default: has_default,
                word: choice,
            },
        ) => default == has_default && word == choice && cases.as_slice() == given.as_slice(),
        (Step::Close(port), Step::Close(given)) => port.0 == given.0,
        (Step::Exit, Step::Exit) => true,
        (Step::Cancel(pid), Step::Cancel(given)) => pid.0 == given.0,
        (Step::Start(pid), Step::Start(given)) => pid.0 == given.0,
        (
            Step::Reopen { port, cap },
            Step::Reopen {
                port: given,
                cap: other,
            },
        ) => port.0 == given.0 && cap == other,
        _ => false,
    }
}

/// Whether both are one entry.
pub fn is_same_entry(entry: &EntryRef<'_>, other: &EntryRef<'_>) -> bool
    ensures { IsTrue result ↔ (entry.now ≡ other.now) }
{
    entry.pid.0 == other.pid.0 && is_same_step(&entry.step, &other.step)
}

/// Whether this entry stands at this place.
fn stands_at(entries: &ShortEntries, place: usize, entry: &hub_base::Entry) -> bool
    ensures { IsTrue result ↔ (slice_get entries.now place ≡ Some entry.now) }
{
    let mut room = CaseRoom::new();
    match entries.get(place, &mut room) {
        Some(other) => is_same_entry(&other, &entry.by_slice()),
        None => false,
    }
}

/// Whether a chapter begins with this checkpoint.
pub(crate) fn begins_with(
    entries: &ShortEntries,
    checkpoint: &[hub_base::Entry],
) -> Result<(), ChainFault>
    requires { length entries.now ≤ MOST_BYTES }
    ensures ok { OnOk result ((later : List Entry) × (entries.now ≡ checkpoint.now ++ later)) }
    ensures err { IfErr result (IsOtherBeginning entries.now checkpoint.now) }
{
    for (place, entry) in checkpoint.iter().enumerate() {
        if !stands_at(entries, place, entry) {
            return Err(ChainFault::OtherCheckpoint {
                line: line_of(place),
            });
        }
    }
    Ok(())
}
