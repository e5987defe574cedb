//! A hub that goes on from the checkpoint of another's state.

ghost use Rattle.std.specs.Prelude.{◌≡◌, ◌≤◌, length, IfOk, OnOk, OnErr, None, true};
ghost use Rattle.std.specs.List.{flat_map};
ghost use Rattle.hub_base.specs.Head.{AreOf, IsHead, is_of};
ghost use Rattle.hub_base.specs.Lines.{line};
ghost use Rattle.hub_base.specs.Steps.{refusal};
ghost use Rattle.hub_base.specs.Text.{steps_of};
ghost use Rattle.hub_base.specs.declared.limits.TheConstants.{MOST_EVENTS};
ghost use Rattle.hub_laws.specs.Journals.{IsLegal};
ghost use Rattle.hub_core.specs.Follows.{TakesMemory};
ghost use Rattle.hub_core.specs.HubView.{Grows, HasRoom, HasSpare, IsLimit, Steps, StepsHeard, opened_hub, state_of};
ghost use Rattle.hub_chapters.specs.Checkpoint.{checkpoint};
ghost use Rattle.hub_cut.specs.Cut.{hub_with, renewed_hub};

use crate::limits::CHECKPOINT_BYTES;
use crate::making::{make_all, make_checkpoint};
use hub_base::{Entry, EntryRef, Events, Fault, Hears, NoMemory};
use hub_core::{OpenFault, ShortHub, Terms};
use std::alloc::Global;

/// Opens a hub with these terms. It is refused only if an allocation fails.
fn opened(alloc: Global, terms: Terms) -> Result<ShortHub, NoMemory>
    requires head { IsHead terms.head }
    requires limit { IsLimit terms.limit }
    ensures { IfOk result (λ h. h.memory.hub ≡ opened_hub terms) }
{
    match ShortHub::open(alloc, terms.head.procs, terms.limit, terms.head.edition) {
        Ok(hub) => Ok(hub),
        Err(OpenFault::NoMemory) => Err(NoMemory),
        Err(OpenFault::BadProcs | OpenFault::BadLimit) => unreachable!(),
    }
}

/// Makes a step of a process that is admitted, in a journal that has room. Its events replace those that were there; after a
/// refusal there are none. It is refused only if an allocation fails.
pub fn step_admitted(
    hub: &mut ShortHub,
    entry: &EntryRef<'_>,
    events: &mut Events,
) -> Result<(), NoMemory>
    requires fits { is_of hub.old.memory.hub.terms.head.edition entry.now.step ≡ true }
    requires room { HasRoom hub.old.memory.hub entry.now }
    requires admitted { refusal (state_of hub.old.memory.hub) entry.now.pid ≡ None }
    ensures ok { OnOk result (Steps hub.old.memory.hub entry.now hub.new.memory.hub events.new.items) }
    ensures grows { OnErr result (Grows entry.now.step hub.old.memory.hub.places) }
    ensures make { OnErr result (HasSpare hub.old.memory → TakesMemory entry.now.step) }
    ensures unchanged { OnErr result (hub.new.memory.hub ≡ hub.old.memory.hub) }
{
    events.clear();
    step_admitted_heard(hub, entry, events)
}

/// The same, and its events are heard by whoever has room for those of any step. After a refusal none was.
pub(crate) fn step_admitted_heard<E: Hears>(
    hub: &mut ShortHub,
    entry: &EntryRef<'_>,
    events: &mut E,
) -> Result<(), NoMemory>
    requires fits { is_of hub.old.memory.hub.terms.head.edition entry.now.step ≡ true }
    requires room { HasRoom hub.old.memory.hub entry.now }
    requires admitted { refusal (state_of hub.old.memory.hub) entry.now.pid ≡ None }
    requires hears { MOST_EVENTS ≤ E.room events.old }
    ensures ok { OnOk result (
        StepsHeard hub.old.memory.hub entry.now hub.new.memory.hub (E.heard events.old) events.new) }
    ensures grows { OnErr result (Grows entry.now.step hub.old.memory.hub.places) }
    ensures make { OnErr result (HasSpare hub.old.memory → TakesMemory entry.now.step) }
    ensures unchanged { OnErr result (hub.new.memory.hub ≡ hub.old.memory.hub) }
    ensures silent { OnErr result (events.new ≡ events.old) }
{
    match hub.step_heard(entry, events) {
        Ok(()) => Ok(()),
        Err(Fault::NoMemory) => Err(NoMemory),
        Err(_) => unreachable!(),
    }
}

/// A hub with these terms that has made these steps. It is refused only if an allocation fails.
pub fn hub_after(alloc: Global, terms: Terms, entries: &[Entry]) -> Result<ShortHub, NoMemory>
    requires head { IsHead terms.head }
    requires limit { IsLimit terms.limit }
    requires fits { AreOf terms.head.edition entries.now }
    requires legal { IsLegal terms.head entries.now }
    requires few { steps_of entries.now ≤ terms.limit }
    ensures { IfOk result (λ h. h.memory.hub ≡ hub_with terms entries.now 0) }
{
    let mut hub = opened(alloc, terms)?;
    make_all(&mut hub, entries)?;
    Ok(hub)
}

/// A hub that goes on from a checkpoint, and how many steps that has, exits not counted.
#[derive(Drop)]
pub(crate) struct Chapter {
    pub(crate) hub: ShortHub,
    pub(crate) checkpoint: u32,
}

/// A hub with the same terms and as many reserved steps, whose journal is the checkpoint. It is refused only if an
/// allocation fails.
pub(crate) fn renewed(alloc: Global, hub: &ShortHub) -> Result<Chapter, NoMemory>
    ensures hub { IfOk result (λ c. c.hub.memory.hub ≡ renewed_hub hub.now.memory.hub) }
    ensures checkpoint { IfOk result (λ c. c.checkpoint ≡ steps_of (checkpoint (state_of hub.now.memory.hub))) }
    ensures lines { OnOk result (
        length (flat_map line (checkpoint (state_of hub.now.memory.hub))) ≤ CHECKPOINT_BYTES) }
{
    let mut next = opened(alloc, hub.terms())?;
    let checkpoint = make_checkpoint(hub, &mut next)?;
    next.reserve(hub.places())?;
    Ok(Chapter {
        hub: next,
        checkpoint,
    })
}
