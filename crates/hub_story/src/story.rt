//! The story of a journal: what it tells, and what follows from that.

ghost use Rattle.std.specs.Prelude.{◌≡◌, ◌<◌, ◌-◌, ◌^◌, length, IfOk};
ghost use Rattle.hub_base.specs.Head.{IsHead};
ghost use Rattle.hub_story.specs.Stories.{IsStoryOf};

use crate::ends::{end_at, ends_of, stalled_by, waiting_of};
use crate::exits::leavers_of;
use crate::levels::level_of;
use crate::outside::outside_of;
use crate::passing::passages_of;
use crate::walk::tell_all;
use crate::{Level, Outsider, Passage, Told};
use hub_base::{NoMemory, Port};
use hub_core::ShortJournal;
use std::alloc::{AllocError, Global};

/// What a journal tells. How an entry ended is told once.
#[derive(Drop)]
pub struct Story {
    /// Each event, in order.
    pub told: Vec<Told>,
    /// For each entry, in order, where in `told` it stands how it ended and by whose step: its answer, or what it was told
    /// after it waited. `None` while it waits.
    pub ends: Vec<Option<u32>>,
    /// The calls that wait in the end, by arrival.
    pub waiting: Vec<Told>,
}

/// The story of a journal of 1 to `MOST_PROCS` processes. Its entries are stepped once, and none is copied; the journal need
/// not be legal. `Err` where memory was refused; 2^32 events or more are taken for that.
pub fn story_of(alloc: Global, journal: &ShortJournal) -> Result<Story, NoMemory>
    requires head { IsHead journal.now.head }
    requires few { length journal.now.entries < 2 ^ 32 - 1 }
    ensures { IfOk result (λ story. IsStoryOf journal.now story) }
{
    let told = tell_all(alloc, journal)?;
    let ends = ends_of(alloc, &told, journal.entries().len())?;
    let waiting = waiting_of(alloc, &told, &ends)?;
    Ok(Story {
        told,
        ends,
        waiting,
    })
}

impl Story {
    ghost use Rattle.hub_story.specs.Ends.{ended_at};
    ghost use Rattle.hub_story.specs.Levels.{received_by, sent_by};
    ghost use Rattle.hub_story.specs.Outside.{outside};
    ghost use Rattle.hub_story.specs.Passing.{passages};
    ghost use Rattle.hub_story.specs.Waiting.{stalled_by};

    /// How the entry at this place ended, and by whose step; nothing while it waits, and behind the last.
    pub fn end(&self, place: usize) -> Option<Told>
        ensures { result ≡ ended_at self.now place }
    {
        match end_at(&self.ends, place) {
            Some(end) => self.told.get(end as usize).copied(),
            None => None,
        }
    }

    /// The values that went through a port of this journal, oldest first, each from its send to its receive. A value
    /// that was not received has none.
    pub fn passages(
        &self,
        alloc: Global,
        journal: &ShortJournal,
        port: Port,
    ) -> Result<Vec<Passage>, AllocError>
        ensures { IfOk result (λ all.
            all.items ≡ passages journal.now.entries self.now.told.items port) }
    {
        passages_of(alloc, port, journal.entries(), &self.told)
    }

    /// How many values of this journal were sent on a port, and how many were received from it, by its first `count`
    /// entries.
    pub fn level(&self, journal: &ShortJournal, port: Port, count: u32) -> Level
        ensures sent { result.sent ≡ sent_by journal.now.entries self.now.told.items port count }
        ensures received { result.received ≡ received_by journal.now.entries self.now.told.items port count }
    {
        level_of(port, journal.entries(), &self.told, count)
    }

    /// The calls that ended as everyone waited after the step of the entry at this place, by arrival.
    pub fn stalled_by(&self, alloc: Global, place: u32) -> Result<Vec<Told>, AllocError>
        ensures { IfOk result (λ all. all.items ≡ stalled_by self.now.told.items place) }
    {
        stalled_by(alloc, &self.told, place)
    }

    /// The processes that are outside the hub when this journal ends, by number: those that do not wait, and have not
    /// exited or were started again.
    pub fn outside(
        &self,
        alloc: Global,
        journal: &ShortJournal,
    ) -> Result<Vec<Outsider>, AllocError>
        requires few { length journal.now.entries < 2 ^ 32 - 1 }
        ensures { IfOk result (λ all. all.items
            ≡ outside journal.now.entries self.now.told.items self.now.waiting.items journal.now.head.procs) }
    {
        let left = leavers_of(alloc, journal.entries(), &self.told)?;
        outside_of(
            alloc,
            journal.entries(),
            &left,
            &self.waiting,
            journal.head().procs,
        )
    }
}
