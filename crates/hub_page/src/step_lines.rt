//! The lines of the steps, and what is known and counted behind each of them.

ghost use Rattle.std.specs.Prelude.{◌≡◌, ◌≤◌, ◌<◌, ◌+◌, ◌++◌, length, slice_get, OnOk, Some};
ghost use Rattle.hub_story.specs.Levels.{came_by};
ghost use Rattle.hub_story.specs.Told.{end_of};
ghost use Rattle.hub_page.specs.Block.{IsBlock, IsWhole};
ghost use Rattle.hub_page.specs.Data.{full_line};
ghost use Rattle.hub_page.specs.Known.{IsKnown, entries_of, procs_of, told_of};
ghost use Rattle.hub_page.specs.KnownPage.{line_of, lines_of};
ghost use Rattle.hub_page.specs.Line.{IsLine};
ghost use Rattle.hub_page.specs.Past.{IsPast};

use crate::block::Block;
use crate::ends::put_all_told;
use crate::entries::put_entry;
use crate::excerpt::is_told;
use crate::known::Known;
use crate::line::Line;
use crate::past::Past;
use crate::stalls::put_stalled;
use hub_base::{EntryRef, NoMemory};
use hub_core::CaseRoom;

/// Appends all that is told of the step of this line.
fn put_full_line(out: &mut Vec<u8>, line: &Line<'_>) -> Result<(), NoMemory>
    requires { IsLine line.now }
    ensures { OnOk result (out.new.items ≡ out.old.items
        ++ full_line (entries_of line.now.known.now) (told_of line.now.known.now) line.now.place line.now.entry.now) }
{
    put_entry(out, line.entry)?;
    put_all_told(out, line)?;
    put_stalled(out, line)?;
    out.extend_from_slice(b"\n")?;
    Ok(())
}

/// Appends the line, which is empty where the page does not tell the step.
fn put_line(out: &mut Vec<u8>, line: &Line<'_>) -> Result<(), NoMemory>
    requires { IsLine line.now }
    ensures { OnOk result (out.new.items ≡ out.old.items ++ line_of line.now.known.now line.now.place) }
{
    if is_told(line) {
        put_full_line(out, line)
    } else {
        Ok(out.extend_from_slice(b"\n")?)
    }
}

/// Appends the line of this step, which was made last, and counts it.
fn put_step(
    out: &mut Vec<u8>,
    block: &mut Block,
    known: &Known<'_>,
    past: &Past,
    place: usize,
    entry: &EntryRef<'_>,
) -> Result<(), NoMemory>
    requires known { IsKnown known.now }
    requires within { place < length (entries_of known.now) }
    requires entry { slice_get (entries_of known.now) place ≡ Some entry.now }
    requires end { past.now.end ≡ end_of (told_of known.now) place }
    requires came { past.now.walk.came.items ≡ came_by place (told_of known.now) }
    requires past { IsPast known.now (place + 1) past.now }
    requires block { IsBlock known.now place block.old }
    requires whole { IsWhole (procs_of known.now) block.old }
    ensures text { OnOk result (out.new.items ≡ out.old.items ++ line_of known.now place) }
    ensures block { OnOk result (IsBlock known.now (place + 1) block.new) }
    ensures whole { OnOk result (IsWhole (procs_of known.now) block.new) }
    ensures first { OnOk result (block.new.first ≡ block.old.first) }
{
    let line = Line {
        known,
        past,
        place: place as u32,
        entry,
        came: past.walk.came(),
    };
    block.note_step(&line)?;
    put_line(out, &line)
}

/// Appends the lines from the block's first step on, before the end, and takes in what each tells.
pub(crate) fn put_lines(
    out: &mut Vec<u8>,
    past: &mut Past,
    block: &mut Block,
    room: &mut CaseRoom,
    known: &Known<'_>,
    end: usize,
) -> Result<(), NoMemory>
    requires known { IsKnown known.now }
    requires within { end ≤ length (entries_of known.now) }
    requires begun { block.old.first ≤ end }
    requires past { IsPast known.now block.old.first past.old }
    requires block { IsBlock known.now block.old.first block.old }
    requires whole { IsWhole (procs_of known.now) block.old }
    ensures text { OnOk result (out.new.items ≡ out.old.items
        ++ lines_of known.now block.old.first end) }
    ensures past { OnOk result (IsPast known.now end past.new) }
    ensures block { OnOk result (IsBlock known.now end block.new) }
    ensures first { OnOk result (block.new.first ≡ block.old.first) }
{
    for place in block.first as usize..end {
        let entry = past.step(known, place, room)?;
        put_step(out, block, known, past, place, &entry)?;
    }
    Ok(())
}
