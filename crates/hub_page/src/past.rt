//! What is known of the steps so far.

ghost use Rattle.std.specs.Prelude.{◌≡◌, ◌<◌, ◌+◌, length, slice_get, IfOk, OnOk, Some};
ghost use Rattle.hub_base.specs.Head.{IsHead};
ghost use Rattle.hub_story.specs.Levels.{came_by};
ghost use Rattle.hub_story.specs.Told.{end_of};
ghost use Rattle.hub_page.specs.Known.{IsKnown, entries_of, head_of, told_of};
ghost use Rattle.hub_page.specs.Past.{IsPast};

use crate::known::Known;
use crate::parked_calls::ParkedCalls;
use hub_base::{EntryRef, NoMemory};
use hub_core::CaseRoom;
use hub_story::{Levels, Told, Walk};
use hub_story_text::Seen;
use std::alloc::Global;

/// What is told of all steps before a place.
#[derive(Drop)]
pub(crate) struct Past {
    /// Makes the steps.
    pub(crate) walk: Walk,
    /// How the entry of the last one ended; nothing while it waits.
    pub(crate) end: Option<Told>,
    /// What the end of the story tells of them.
    pub(crate) seen: Seen,
    /// How many values each port holds.
    pub(crate) levels: Levels,
    /// Where calls wait.
    pub(crate) parked: ParkedCalls,
}

impl Past {
    /// Nothing is.
    pub(crate) fn new(alloc: Global, known: &Known<'_>) -> Result<Past, NoMemory>
        requires known { IsKnown known.now }
        requires head { IsHead (head_of known.now) }
        ensures { IfOk result (IsPast known.now 0) }
    {
        Ok(Past {
            walk: Walk::new(alloc, known.explained.journal)?,
            end: None,
            seen: Seen::new(alloc)?,
            levels: Levels::new(alloc)?,
            parked: ParkedCalls::new(alloc, known.procs())?,
        })
    }

    /// Makes the step at this place, and gives its entry, whose cases are put in the room for them.
    pub(crate) fn step<'a>(
        &mut self,
        known: &Known<'_>,
        place: usize,
        room: &'a mut CaseRoom,
    ) -> Result<EntryRef<'a>, NoMemory>
        requires known { IsKnown known.now }
        requires within { place < length (entries_of known.now) }
        requires past { IsPast known.now place self.old }
        ensures past { OnOk result (IsPast known.now (place + 1) self.new) }
        ensures came { OnOk result (self.new.walk.came.items ≡ came_by place (told_of known.now)) }
        ensures end { OnOk result (self.new.end ≡ end_of (told_of known.now) place) }
        ensures entry { IfOk result (λ entry. slice_get (entries_of known.now) place ≡ Some entry) }
    {
        let entry = self.walk.step(known.explained.journal, place, room)?;
        let came = self.walk.came();
        self.end = self.seen.note(&known.explained, place, came)?;
        self.levels.note_all(known.entries(), came)?;
        self.parked.note_all(known.procs(), came);
        Ok(entry)
    }
}
