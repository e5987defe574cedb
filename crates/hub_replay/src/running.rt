//! What the entries of a conversation have led to so far.

ghost use Rattle.std.specs.Prelude.{◌≡◌, ◌≤◌, ◌<◌, ◌+◌, ◌-◌, ◌^◌, ℕ, List, [], length, IfOk};
ghost use Rattle.hub_base.specs.Head.{IsHead};
ghost use Rattle.hub_base.specs.Entry.{Entry};
ghost use Rattle.hub_base.specs.declared.head.Head.{Head};
ghost use Rattle.hub_base.specs.declared.limits.TheConstants.{MOST_BYTES};
ghost use Rattle.hub_replay.specs.Lines.{IsEntryLine};
ghost use Rattle.hub_replay.specs.Running.{Goes, RunsTo, steps_after};

use crate::lines::read_entry;
use hub_base::{Head, Kind, MOST_STEPS, NoMemory};
use hub_core::Machine;
use hub_text::{EntryPlace, EventText};
use std::alloc::Global;

/// A machine that stands where the entries so far have led. Each entry is read into the same place.
#[derive(Drop)]
pub(crate) struct Running {
    /// What the entries have led to.
    machine: Machine,
    /// How many of them are no exits.
    steps: u32,
    /// Where the last of them stands.
    place: EntryPlace,
    /// A place for what is read behind it, where that is looked for.
    other: EntryPlace,
}

/// How many entries are no exits with this one; `None` where it is one too many.
fn steps_after(place: &EntryPlace, steps: u32) -> Option<u32>
    ensures { result ≡ steps_after steps place.now }
{
    if place.is_exit() {
        Some(steps)
    } else if steps >= MOST_STEPS {
        None
    } else {
        Some(steps + 1)
    }
}

impl Running {
    /// Before the first entry.
    pub(crate) fn open(alloc: Global, head: Head) -> Result<Running, NoMemory>
        requires { IsHead head }
        ensures { IfOk result (λ running. RunsTo head [] running.machine running.steps) }
    {
        Ok(Running {
            machine: Machine::new(alloc, head)?,
            steps: 0,
            place: EntryPlace::new(),
            other: EntryPlace::new(),
        })
    }

    /// Makes the step of the line that stands behind the head lines in this text, and appends the lines of its
    /// events; or tells what is wrong with the line, and appends nothing.
    pub(crate) fn answer(
        &mut self,
        text: &[u8],
        answers: &mut EventText,
    ) -> Result<Option<Kind>, NoMemory>
        requires fits { length text.now ≤ MOST_BYTES }
        requires room { self.old.machine.steps < 2 ^ 32 - 1 }
        ensures goes { IfOk result (λ fault. (head : Head) (entries : List Entry) (line body : List ℕ)
            → RunsTo head entries self.old.machine self.old.steps
            → IsEntryLine text.now head line body
            → Goes head entries body self.new.machine self.new.steps answers.old.lines answers.new.lines fault) }
        ensures steps { self.new.machine.steps ≤ self.old.machine.steps + 1 }
    {
        if let Err(kind) = read_entry(text, &mut self.place, &mut self.other) {
            return Ok(Some(kind));
        }
        let Some(steps) = steps_after(&self.place, self.steps) else {
            return Ok(Some(Kind::TooLong));
        };
        answers.make_step_room()?;
        self.machine.step_into(&self.place, answers)?;
        self.steps = steps;
        Ok(None)
    }
}
