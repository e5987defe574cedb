//! The steps of a journal, written as they are made.

ghost use Rattle.std.specs.Prelude.{◌≡◌, ◌<◌, ◌-◌, ◌^◌, length, IfErr, OnErr, OnOk};
ghost use Rattle.hub_base.specs.Head.{IsHead};
ghost use Rattle.hub_replay.specs.ViewFaults.{Fails};
ghost use Rattle.hub_trace.specs.Formats.{Begins, Format, Goes, Keeps};

use hub_base::{EntryRef, NoMemory};
use hub_core::{CaseRoom, ShortEntries, ShortJournal};
use hub_replay::{Sink, ViewFault, write_many};
use hub_story::{Told, Walk};

/// How the events of steps are written.
pub(crate) trait Pen {
    /// In which format.
    ghost format: { Format };

    /// Appends the lines of an event, which is told of this entry; `came` is all that came by its step.
    fn put(
        &mut self,
        text: &mut Vec<u8>,
        entry: &EntryRef<'_>,
        told: &Told,
        came: &[Told],
    ) -> Result<(), NoMemory>
        ensures { OnOk result (Keeps format text.old.items text.new.items) };
}

/// Appends the lines of a step of these entries, by which these came.
fn put_step<P: Pen>(
    text: &mut Vec<u8>,
    pen: &mut P,
    entries: &ShortEntries,
    came: &[Told],
    room: &mut CaseRoom,
) -> Result<(), NoMemory>
    ensures { OnOk result (Keeps P.format text.old.items text.new.items) }
{
    for told in came {
        if let Some(entry) = entries.get(told.asked as usize, room) {
            pen.put(text, &entry, told, came)?;
        }
    }
    Ok(())
}

/// Writes `text`, and behind it the lines of the steps of a journal. The last of them are left in `text`.
pub(crate) fn write_steps<W: Sink, P: Pen>(
    output: &mut W,
    text: &mut Vec<u8>,
    pen: &mut P,
    journal: &ShortJournal,
) -> Result<(), ViewFault>
    requires head { IsHead journal.now.head }
    requires few { length journal.now.entries < 2 ^ 32 - 1 }
    ensures goes { OnOk result (Goes P.format (W.contents output.old) (W.contents output.new) text.old.items text.new.items) }
    ensures begun { OnErr result (Begins P.format (W.contents output.old) (W.contents output.new) text.old.items) }
    ensures err { IfErr result (Fails (W.failures output.old) (W.failures output.new)) }
    ensures ok { OnOk result (W.failures output.new ≡ W.failures output.old) }
{
    let mut walk = Walk::new(*text.allocator(), journal)?;
    let mut room = CaseRoom::new();
    for place in 0..journal.entries().len() {
        walk.step(journal, place, &mut room)?;
        put_step(text, pen, journal.entries(), walk.came(), &mut room)?;
        write_many(output, text)?;
    }
    Ok(())
}
