//! The steps of a journal, made one by one, and what comes by each. A machine makes them.

ghost use Rattle.std.specs.Prelude.{◌≡◌, ◌<◌, ◌+◌, ◌-◌, ◌^◌, ◌++◌, [], Some, length, slice_get, IfOk, OnOk};
ghost use Rattle.std.specs.List.{filter_map};
ghost use Rattle.hub_base.specs.Head.{IsHead};
ghost use Rattle.hub_story.specs.LastCalls.{tells_of};
ghost use Rattle.hub_story.specs.Levels.{came_by};
ghost use Rattle.hub_story.specs.Tellings.{IsTelling};
ghost use Rattle.hub_story.specs.Told.{told};
ghost use Rattle.hub_story.specs.Walks.{IsAt};

use crate::Told;
use crate::last_calls::{LastCalls, asked_of, no_calls, note_call};
use hub_base::{EntryRef, Event, Events, MOST_EVENTS, NoMemory};
use hub_core::{CaseRoom, Machine, ShortJournal};
use std::alloc::{AllocError, Global};

/// A walk along a journal: behind each step it has what came by it, and of the steps before no more than what it needs to go on.
#[derive(Drop)]
pub struct Walk {
    /// Makes the steps.
    machine: Machine,
    /// Where the last call of each process stands.
    calls: LastCalls,
    /// The events of the last step.
    events: Events,
    /// What came by it.
    came: Vec<Told>,
}

/// Tells the events of the entry at this place.
fn tell(
    told: &mut Vec<Told>,
    calls: &LastCalls,
    place: u32,
    events: &[Event],
) -> Result<(), AllocError>
    ensures { OnOk result (
        told.new.items ≡ told.old.items ++ filter_map (tells_of calls.now place) events.now) }
{
    for event in events {
        if let Some(asked) = asked_of(calls, place, event) {
            told.push(Told {
                asked,
                by: place,
                event: *event,
            })?;
        }
    }
    Ok(())
}

impl Walk {
    /// At the beginning of a journal of 1 to `MOST_PROCS` processes.
    pub fn new(alloc: Global, journal: &ShortJournal) -> Result<Walk, NoMemory>
        requires head { IsHead journal.now.head }
        ensures at { IfOk result (IsAt journal.now 0) }
        ensures telling { IfOk result (λ _walk.
            IsTelling (length journal.now.entries) (told journal.now.head journal.now.entries)) }
    {
        Ok(Walk {
            machine: Machine::new(alloc, journal.head())?,
            calls: no_calls(),
            events: Events::new(),
            came: Vec::with_capacity(alloc, MOST_EVENTS)?,
        })
    }

    /// Makes the step at this place of the journal, which is the next one, and gives its entry; its cases are put in the room for
    /// them. After an `Err`, which is memory, the walk is over.
    pub fn step<'a>(
        &mut self,
        journal: &ShortJournal,
        place: usize,
        room: &'a mut CaseRoom,
    ) -> Result<EntryRef<'a>, NoMemory>
        requires few { length journal.now.entries < 2 ^ 32 - 1 }
        requires within { place < length journal.now.entries }
        requires at { IsAt journal.now place self.old }
        ensures at { OnOk result (IsAt journal.now (place + 1) self.new) }
        ensures came { OnOk result (
            self.new.came.items ≡ came_by place (told journal.now.head journal.now.entries)) }
        ensures entry { IfOk result (λ entry. slice_get journal.now.entries place ≡ Some entry) }
    {
        let entry = journal.entries().entry(place, room);
        self.machine.answer(&entry, &mut self.events)?;
        note_call(&mut self.calls, place as u32, &entry, &self.events);
        self.came.clear();
        tell(&mut self.came, &self.calls, place as u32, &self.events)?;
        Ok(entry)
    }

    /// What came by the last step, in order.
    pub fn came(&self) -> &[Told]
        ensures { result.now ≡ self.now.came.items }
    {
        &self.came
    }
}

/// Tells the events of all steps of a journal.
fn tell_steps(all: &mut Vec<Told>, walk: &mut Walk, journal: &ShortJournal) -> Result<(), NoMemory>
    requires few { length journal.now.entries < 2 ^ 32 - 1 }
    requires at { IsAt journal.now 0 walk.old }
    requires none { all.old.items ≡ [] }
    ensures { OnOk result (all.new.items ≡ told journal.now.head journal.now.entries) }
{
    let mut room = CaseRoom::new();
    for place in 0..journal.entries().len() {
        walk.step(journal, place, &mut room)?;
        all.extend_from_slice(walk.came())?;
    }
    Ok(())
}

/// All that a journal tells, in order.
pub(crate) fn tell_all(alloc: Global, journal: &ShortJournal) -> Result<Vec<Told>, NoMemory>
    requires head { IsHead journal.now.head }
    requires few { length journal.now.entries < 2 ^ 32 - 1 }
    ensures { IfOk result (λ all. all.items ≡ told journal.now.head journal.now.entries) }
{
    let mut walk = Walk::new(alloc, journal)?;
    // Most steps have one event.
    let mut all = Vec::with_capacity(alloc, journal.entries().len())?;
    tell_steps(&mut all, &mut walk, journal)?;
    Ok(all)
}
