//! What a walk keeps of all that a journal tells: what must be known before its first step is shown.

ghost use Rattle.std.specs.Prelude.{◌≡◌, ◌<◌, ◌-◌, ◌^◌, ◌∷◌, ◌++◌, List, [], filter, length, IfOk, OnOk};
ghost use Rattle.hub_base.specs.Entry.{Entry};
ghost use Rattle.hub_base.specs.Head.{IsHead};
ghost use Rattle.hub_story.specs.declared.told.Told.{Told as Event};
ghost use Rattle.hub_story.specs.Levels.{told_by};
ghost use Rattle.hub_story.specs.Outlines.{IsOutline, ends_late, kept};
ghost use Rattle.hub_story.specs.Tellings.{IsTelling};
ghost use Rattle.hub_story.specs.Told.{told};
ghost use Rattle.hub_story.specs.Walks.{IsAt};

use crate::lives::is_turn;
use crate::partners::is_made;
use crate::told_list::ToldList;
use crate::{PortMoves, Told, Walk};
use hub_base::NoMemory;
use hub_core::{CaseRoom, ShortEntries, ShortJournal};
use std::alloc::{AllocError, Global};

/// What is kept of all that a journal tells.
#[derive(Drop)]
pub struct Outline {
    /// Which calls moved values, port by port.
    pub moves: PortMoves,
    /// That a port was made, each time.
    pub made: Vec<Told>,
    /// That one was closed or opened again, each time.
    pub turns: Vec<Told>,
    /// That a call ended by a later step than its own, each time.
    pub ended: ToldList,
}

/// Whether the event says that a call ended by a later step than its own.
fn ends_late(told: &Told) -> bool
    ensures { result ≡ ends_late told.now }
{
    !told.event.what.is_parked() && told.asked < told.by
}

/// Keeps the event, if it is to be kept.
fn keep_if(list: &mut Vec<Told>, told: &Told, wanted: bool) -> Result<(), AllocError>
    ensures { OnOk result (list.new.items ≡ list.old.items ++ kept wanted told.now) }
{
    if !wanted {
        return Ok(());
    }
    list.push(*told)?;
    Ok(())
}

/// Keeps the event, if by it a call ended late.
fn keep_late(list: &mut ToldList, told: &Told) -> Result<(), AllocError>
    ensures { OnOk result (list.new ≡ list.old ++ kept (ends_late told.now) told.now) }
{
    if !ends_late(told) {
        return Ok(());
    }
    list.push(told)
}

impl Outline {
    /// Of nothing.
    fn new(alloc: Global) -> Result<Outline, AllocError>
        ensures { (es : List Entry) → IfOk result (IsOutline es []) }
    {
        Ok(Outline {
            moves: PortMoves::new(alloc)?,
            made: Vec::new(alloc),
            turns: Vec::new(alloc),
            ended: ToldList::new(alloc),
        })
    }

    /// Takes in the next event of these entries.
    fn note(&mut self, entries: &ShortEntries, told: &Told) -> Result<(), AllocError>
        ensures { OnOk result ((before : List Event) → IsOutline entries.now before self.old
            → IsOutline entries.now (before ++ told.now ∷ []) self.new) }
    {
        self.moves.note(entries, told)?;
        keep_if(&mut self.made, told, is_made(told))?;
        keep_if(&mut self.turns, told, is_turn(entries, told))?;
        keep_late(&mut self.ended, told)
    }

    /// Takes in these events, in order, behind those so far.
    fn note_all(&mut self, entries: &ShortEntries, told: &[Told]) -> Result<(), AllocError>
        ensures { OnOk result ((before : List Event) → IsOutline entries.now before self.old
            → IsOutline entries.now (before ++ told.now) self.new) }
    {
        for told in told {
            self.note(entries, told)?;
        }
        Ok(())
    }

    /// Takes in all steps of a journal.
    fn note_steps(&mut self, walk: &mut Walk, journal: &ShortJournal) -> Result<(), NoMemory>
        requires few { length journal.now.entries < 2 ^ 32 - 1 }
        requires at { IsAt journal.now 0 walk.old }
        requires none { IsOutline journal.now.entries [] self.old }
        ensures { OnOk result (
            IsOutline journal.now.entries (told journal.now.head journal.now.entries) self.new) }
    {
        let entries = journal.entries();
        let mut room = CaseRoom::new();
        for place in 0..entries.len() {
            walk.step(journal, place, &mut room)?;
            self.note_all(entries, walk.came())?;
        }
        Ok(())
    }

    /// The outline of a journal of 1 to `MOST_PROCS` processes, by one walk. It keeps 8 bytes of each value that was sent or
    /// received, and 20 of each call that waited, beside what it received.
    pub fn of(alloc: Global, journal: &ShortJournal) -> Result<Outline, NoMemory>
        requires head { IsHead journal.now.head }
        requires few { length journal.now.entries < 2 ^ 32 - 1 }
        ensures outline { IfOk result (IsOutline journal.now.entries (told journal.now.head journal.now.entries)) }
        ensures telling { IfOk result (λ _outline.
            IsTelling (length journal.now.entries) (told journal.now.head journal.now.entries)) }
    {
        let mut walk = Walk::new(alloc, journal)?;
        let mut outline = Outline::new(alloc)?;
        outline.note_steps(&mut walk, journal)?;
        Ok(outline)
    }
}
