//! What is known of the steps that were shown: who moved values last, which calls waited, and which wait.

ghost use Rattle.std.specs.Prelude.{◌≡◌, ◌<◌, ◌+◌, ◌++◌, [], filter, length, IfOk, OnOk};
ghost use Rattle.hub_story.specs.Levels.{came_by};
ghost use Rattle.hub_story.specs.Told.{end_of};
ghost use Rattle.hub_laws.specs.Replies.{is_parked};
ghost use Rattle.hub_story_text.specs.declared.explained.Explained.{Explained as Explanation};
ghost use Rattle.hub_story_text.specs.Explained.{IsExplained, entries_of, head_of, told_of};
ghost use Rattle.hub_story_text.specs.Seen.{IsSeen, unended};
ghost use Rattle.hub_story_text.specs.StoryText.{end_text};

use crate::explained::Explained;
use crate::outside::put_outside;
use crate::waiters::put_waiters;
use crate::waits::{Waits, put_waits, told_wait};
use hub_base::NoMemory;
use hub_story::{LastMoves, Told, to_others};
use std::alloc::{AllocError, Global};

const END_HEADING: &[u8] = b"in the end these wait\n";

const END_NOBODY: &[u8] = b"in the end no call waits\n";

/// What is known of the steps so far.
#[derive(Drop)]
pub struct Seen {
    /// Who moved values last, and who has left.
    pub last: LastMoves,
    /// Which calls waited.
    waits: Waits,
    /// The calls that wait to the end, by arrival.
    waiting: Vec<Told>,
}

/// Takes in the calls that are told to wait.
fn note_parked(waiting: &mut Vec<Told>, came: &[Told]) -> Result<(), AllocError>
    ensures { OnOk result (
        waiting.new.items ≡ waiting.old.items ++ filter (λ t. is_parked t.event.what) came.now) }
{
    for told in came {
        if told.event.what.is_parked() {
            waiting.push(*told)?;
        }
    }
    Ok(())
}

/// Takes in the call that began by the step by which these came, where it has no end.
fn note_waiting(waiting: &mut Vec<Told>, end: Option<Told>, came: &[Told]) -> Result<(), AllocError>
    ensures { OnOk result (waiting.new.items ≡ waiting.old.items ++ unended end came.now) }
{
    if end.is_some() {
        return Ok(());
    }
    note_parked(waiting, came)
}

impl Seen {
    /// Nothing yet.
    pub fn new(alloc: Global) -> Result<Seen, AllocError>
        ensures { (e : Explanation) → IfOk result (IsSeen e 0) }
    {
        Ok(Seen {
            last: LastMoves::new(alloc)?,
            waits: Waits::new(alloc),
            waiting: Vec::new(alloc),
        })
    }

    /// Takes in the step at this place, by which these came, and gives how its entry ended.
    pub fn note(
        &mut self,
        explained: &Explained,
        place: usize,
        came: &[Told],
    ) -> Result<Option<Told>, AllocError>
        requires explained { IsExplained explained.now }
        requires within { place < length (entries_of explained.now) }
        requires came { came.now ≡ came_by place (told_of explained.now) }
        requires seen { IsSeen explained.now place self.old }
        ensures seen { OnOk result (IsSeen explained.now (place + 1) self.new) }
        ensures end { IfOk result (λ end. end ≡ end_of (told_of explained.now) place) }
    {
        let end = explained.end(place, came);
        self.last.note_all(explained.journal.entries(), came)?;
        self.waits.note(told_wait(explained, place, end))?;
        note_waiting(&mut self.waiting, end, came)?;
        Ok(end)
    }

    /// Appends what stands behind the lines of steps, all of which were seen.
    pub fn put_end(&self, out: &mut Vec<u8>, explained: &Explained) -> Result<(), NoMemory>
        requires explained { IsExplained explained.now }
        requires seen { IsSeen explained.now (length (entries_of explained.now)) self.now }
        ensures { OnOk result (out.new.items ≡ out.old.items
            ++ end_text explained.now.clock (head_of explained.now) (entries_of explained.now) (told_of explained.now)) }
    {
        out.extend_from_slice(&explained.known.ports)?;
        put_waits(out, explained, &self.waits)?;
        let others = to_others(*out.allocator(), explained.clock, &self.waiting)?;
        let entries = explained.journal.entries();
        put_waiters(out, END_NOBODY, END_HEADING, entries, &self.last, &others)?;
        let left = &self.last.receivers.left;
        put_outside(out, explained, left, &self.waiting)?;
        Ok(())
    }
}
