//! A cut: the journal so far is handed out, and the hub goes on from its checkpoint.

ghost use Rattle.std.specs.Prelude.{◌≡◌, ◌≤◌, ◌<◌, IfOk, IfErr, OnOk, OnErr, None};
ghost use Rattle.hub_base.specs.declared.limits.TheConstants.{MOST_EVENTS};
ghost use Rattle.hub_base.specs.Text.{Fits, steps_of};
ghost use Rattle.hub_base.specs.Steps.{refusal};
ghost use Rattle.hub_core.specs.HubView.{state_of};
ghost use Rattle.hub_chapters.specs.Checkpoint.{checkpoint, most_steps};
ghost use Rattle.hub_cut.specs.ChapterText.{FitLines, most_line};
ghost use Rattle.hub_cut.specs.Cut.{CutsAndSteps, HasHeard, IsCut, Refused};

use crate::renewals::{Chapter, renewed, step_admitted_heard};
use hub_base::{EntryRef, Fault, Hears, Journal, NoMemory};
use hub_core::ShortHub;
use std::alloc::Global;
use std::mem;

/// Gives the hub as it was, with its whole journal, and leaves one in its place that goes on from the checkpoint, with
/// the same limit and as many reserved steps: whatever follows is answered as if nothing had been cut. Nothing is
/// written out, so the journal's length costs nothing. It is refused only if an allocation fails, and then nothing has
/// changed.
pub fn cut(alloc: Global, hub: &mut ShortHub) -> Result<ShortHub, NoMemory>
    ensures whole { IfOk result (λ h. h ≡ hub.old) }
    ensures goes_on { OnOk result (IsCut hub.old.memory.hub hub.new.memory.hub) }
    ensures unchanged { OnErr result (hub.new ≡ hub.old) }
{
    let next = renewed(alloc, hub)?;
    Ok(mem::replace(hub, next.hub))
}

/// The same of a chapter, and tells how long its lines are.
pub(crate) fn cut_short(alloc: Global, chapter: &mut Chapter) -> Result<ShortHub, NoMemory>
    ensures whole { IfOk result (λ h. h ≡ chapter.old.hub) }
    ensures goes_on { OnOk result (IsCut chapter.old.hub.memory.hub chapter.new.hub.memory.hub) }
    ensures checkpoint { OnOk result (chapter.new.checkpoint ≡ steps_of (checkpoint (state_of chapter.old.hub.memory.hub))) }
    ensures lines { OnOk result (FitLines chapter.new.hub.memory.hub.journal 0) }
    ensures unchanged { OnErr result (chapter.new ≡ chapter.old) }
{
    let next = renewed(alloc, &chapter.hub)?;
    Ok(mem::replace(chapter, next).hub)
}

/// The same, and gives the journal so far, written out.
pub fn cut_journal(alloc: Global, hub: &mut ShortHub) -> Result<Journal, NoMemory>
    ensures journal { IfOk result (λ j. j ≡ record { head = hub.old.memory.hub.terms.head; entries = hub.old.memory.hub.journal }) }
    ensures goes_on { OnOk result (IsCut hub.old.memory.hub hub.new.memory.hub) }
    ensures unchanged { OnErr result (hub.new ≡ hub.old) }
{
    let whole = cut(alloc, hub)?;
    Ok(whole.into_journal())
}

/// The chapter that a cut leaves, after a step of a process that is admitted, whose events are heard. It is refused only if an
/// allocation fails, and then none was.
fn renewed_after<E: Hears>(
    alloc: Global,
    hub: &ShortHub,
    entry: &EntryRef<'_>,
    events: &mut E,
) -> Result<Chapter, NoMemory>
    requires fits { Fits hub.now.memory.hub.terms.head.edition entry.now }
    requires room { most_steps hub.now.memory.hub.terms.head < hub.now.memory.hub.terms.limit }
    requires admitted { refusal (state_of hub.now.memory.hub) entry.now.pid ≡ None }
    requires hears { MOST_EVENTS ≤ E.room events.old }
    ensures ok { IfOk result (λ c.
        HasHeard (E.heard events.old) events.new (CutsAndSteps hub.now.memory.hub entry.now c.hub.memory.hub)) }
    ensures checkpoint { IfOk result (λ c. c.checkpoint ≡ steps_of (checkpoint (state_of hub.now.memory.hub))) }
    ensures lines { IfOk result (λ c. FitLines c.hub.memory.hub.journal (most_line entry.now)) }
    ensures silent { OnErr result (events.new ≡ events.old) }
{
    let mut next = renewed(alloc, hub)?;
    step_admitted_heard(&mut next.hub, entry, events)?;
    Ok(next)
}

/// Cuts the chapter, makes a step behind the checkpoint, whose events are heard, and returns the hub as it was before. If the
/// process is admitted, the step is refused only if an allocation fails. After a refusal nothing has changed.
pub(crate) fn cut_and_step<E: Hears>(
    alloc: Global,
    chapter: &mut Chapter,
    entry: &EntryRef<'_>,
    events: &mut E,
) -> Result<ShortHub, Fault>
    requires fits { Fits chapter.old.hub.memory.hub.terms.head.edition entry.now }
    requires room { most_steps chapter.old.hub.memory.hub.terms.head < chapter.old.hub.memory.hub.terms.limit }
    requires hears { MOST_EVENTS ≤ E.room events.old }
    ensures whole { IfOk result (λ h. h ≡ chapter.old.hub) }
    ensures ok { OnOk result (
        HasHeard (E.heard events.old) events.new (CutsAndSteps chapter.old.hub.memory.hub entry.now chapter.new.hub.memory.hub)) }
    ensures checkpoint { OnOk result (chapter.new.checkpoint ≡ steps_of (checkpoint (state_of chapter.old.hub.memory.hub))) }
    ensures lines { OnOk result (FitLines chapter.new.hub.memory.hub.journal (most_line entry.now)) }
    ensures refused { IfErr result (λ f. Refused (state_of chapter.old.hub.memory.hub) (Unit {0}) entry.now f) }
    ensures unchanged { OnErr result (chapter.new ≡ chapter.old) }
    ensures silent { OnErr result (events.new ≡ events.old) }
{
    if let Some(fault) = chapter.hub.refusal(entry.pid) {
        return Err(fault);
    }
    match renewed_after(alloc, &chapter.hub, entry, events) {
        Ok(next) => Ok(mem::replace(chapter, next).hub),
        Err(NoMemory) => Err(Fault::NoMemory),
    }
}
