//! The lines of the steps.

ghost use Rattle.std.specs.Prelude.{◌≡◌, ◌≤◌, ◌<◌, ◌+◌, ◌++◌, [], Some, filter, length, slice_get, IfErr, IfOk, OnErr, OnOk};
ghost use Rattle.hub_replay.specs.Devices.{AppendsAllBut, AppendsBeginning};
ghost use Rattle.hub_replay.specs.ViewFaults.{Fails};
ghost use Rattle.hub_story.specs.ByClock.{to_others};
ghost use Rattle.hub_story.specs.LastMoves.{AreLast, known_at};
ghost use Rattle.hub_story.specs.Levels.{told_by};
ghost use Rattle.hub_story.specs.Waiting.{is_stalled};
ghost use Rattle.hub_story.specs.Walks.{IsAt};
ghost use Rattle.hub_story_text.specs.Explained.{IsExplained, IsLine, entries_of, lines_from, told_of};
ghost use Rattle.hub_story_text.specs.Seen.{IsSeen};
ghost use Rattle.hub_story_text.specs.StoryText.{came_by, stall_heading};
ghost use Rattle.hub_story_text.specs.WaiterText.{waiters_words};

use crate::Window;
use crate::explained::{Explained, put_painted_line};
use crate::lines::Line;
use crate::seen::Seen;
use crate::waiters::put_waiters;
use hub_base::NoMemory;
use hub_core::CaseRoom;
use hub_replay::{Sink, ViewFault, write_many};
use hub_story::{LastMoves, Told, Walk, to_others};
use std::alloc::{AllocError, Global};

/// What stands above those whom a step stalled.
const STALL_HEADING: &[u8] = b"        stall: everyone who is left waits\n";

/// Those of these events that say that everyone waits.
pub fn stalled_of(alloc: Global, came: &[Told]) -> Result<Vec<Told>, AllocError>
    ensures { IfOk result (λ stalled. stalled.items ≡ filter (λ t. is_stalled t.event.what) came.now) }
{
    let mut stalled = Vec::new(alloc);
    for told in came {
        if told.event.what.is_stalled() {
            stalled.push(*told)?;
        }
    }
    Ok(stalled)
}

/// Appends those whom a step stalled, but not the clock. Most steps stall nobody.
fn put_stalled(
    out: &mut Vec<u8>,
    explained: &Explained,
    moves: &LastMoves,
    came: &[Told],
) -> Result<(), NoMemory>
    ensures { OnOk result (out.new.items ≡ out.old.items
        ++ waiters_words [] stall_heading (entries_of explained.now)
        (known_at moves.now) moves.now.receivers.left.items
        (to_others explained.now.clock (filter (λ t. is_stalled t.event.what) came.now))) }
{
    let stalled = stalled_of(*out.allocator(), came)?;
    if stalled.is_empty() {
        return Ok(());
    }
    let others = to_others(*out.allocator(), explained.clock, &stalled)?;
    let entries = explained.journal.entries();
    put_waiters(out, b"", STALL_HEADING, entries, moves, &others)?;
    Ok(())
}

/// Appends the line of a step, and those whom it stalled, where the window has it.
fn put_step(
    out: &mut Vec<u8>,
    moves: &LastMoves,
    explained: &Explained,
    window: Window,
    line: &Line<'_>,
) -> Result<(), NoMemory>
    requires explained { IsExplained explained.now }
    requires line { IsLine explained.now line.now }
    requires entry { slice_get (entries_of explained.now) line.now.place ≡ Some line.now.entry.now }
    requires came { line.now.came.now ≡ came_by line.now.place (told_of explained.now) }
    requires last { AreLast (entries_of explained.now)
        (told_by (line.now.place + 1) (told_of explained.now)) moves.now }
    ensures { OnOk result (out.new.items
        ++ lines_from explained.now window (line.now.place + 1)
        ≡ out.old.items ++ lines_from explained.now window line.now.place) }
{
    if !window.has(line.place) {
        return Ok(());
    }
    put_painted_line(out, explained, line)?;
    put_stalled(out, explained, moves, line.came)
}

/// Writes `text`, and behind it the lines of the steps that the window has, below each those whom it stalled; the last of them
/// are left in `text`. Walks along the journal, and takes in all of its steps.
pub(crate) fn write_steps<W: Sink>(
    output: &mut W,
    text: &mut Vec<u8>,
    walk: &mut Walk,
    seen: &mut Seen,
    explained: &Explained,
    window: Window,
) -> Result<(), ViewFault>
    requires explained { IsExplained explained.now }
    requires at { IsAt explained.now.journal.now 0 walk.old }
    requires none { IsSeen explained.now 0 seen.old }
    ensures whole { OnOk result (AppendsAllBut (W.contents output.old) (W.contents output.new) (text.old.items
        ++ lines_from explained.now window 0) text.new.items) }
    ensures beginning { OnErr result (AppendsBeginning (W.contents output.old) (W.contents output.new) (text.old.items
        ++ lines_from explained.now window 0)) }
    ensures err { IfErr result (Fails (W.failures output.old) (W.failures output.new)) }
    ensures ok { OnOk result (W.failures output.new ≡ W.failures output.old) }
    ensures seen { OnOk result (IsSeen explained.now (length (entries_of explained.now)) seen.new) }
{
    let mut room = CaseRoom::new();
    for place in 0..explained.journal.entries().len() {
        let entry = walk.step(explained.journal, place, &mut room)?;
        let came = walk.came();
        let end = seen.note(explained, place, came)?;
        let line = Line {
            place: place as u32,
            entry: &entry,
            end,
            came,
        };
        put_step(text, &seen.last, explained, window, &line)?;
        write_many(output, text)?;
    }
    Ok(())
}
