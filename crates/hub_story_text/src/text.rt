//! The whole text.

ghost use Rattle.std.specs.Prelude.{◌≡◌, ◌<◌, ◌-◌, ◌^◌, length, IfErr, OnErr, OnOk};
ghost use Rattle.std.specs.Io.KnownBytes.{Appends};
ghost use Rattle.hub_replay.specs.Devices.{AppendsBeginning};
ghost use Rattle.hub_replay.specs.ViewFaults.{Fails};
ghost use Rattle.hub_base.specs.Head.{IsHead};
ghost use Rattle.hub_story.specs.Told.{told};
ghost use Rattle.hub_story.specs.Walks.{IsAt};
ghost use Rattle.hub_story_text.specs.Explained.{IsExplained, text_of};
ghost use Rattle.hub_story_text.specs.Seen.{IsSeen};
ghost use Rattle.hub_story_text.specs.StoryText.{painted_text};

use crate::Window;
use crate::explained::Explained;
use crate::known::Known;
use crate::paint::Paint;
use crate::seen::Seen;
use crate::steps::write_steps;
use hub_core::ShortJournal;
use hub_replay::{Sink, ViewFault, write_whole};
use hub_story::Walk;
use std::alloc::Global;

/// What stands above the lines of steps.
pub const HEADING: &[u8] =
    b"   step  who asks what                  answer            waited              partner or reason     what else it does\n";

/// Writes the story of a journal, by what is known of it, on a walk from its beginning.
fn write_explained<W: Sink>(
    output: &mut W,
    walk: &mut Walk,
    seen: &mut Seen,
    explained: &Explained,
    window: Window,
) -> Result<(), ViewFault>
    requires explained { IsExplained explained.now }
    requires at { IsAt explained.now.journal.now 0 walk.old }
    requires none { IsSeen explained.now 0 seen.old }
    ensures whole { OnOk result (Appends (W.contents output.old) (W.contents output.new)
        (text_of explained.now window)) }
    ensures beginning { OnErr result (AppendsBeginning (W.contents output.old) (W.contents output.new)
        (text_of explained.now window)) }
    ensures err { IfErr result (Fails (W.failures output.old) (W.failures output.new)) }
    ensures ok { OnOk result (W.failures output.new ≡ W.failures output.old) }
{
    let mut text = Vec::new(*explained.known.ports.allocator());
    text.extend_from_slice(HEADING)?;
    write_steps(output, &mut text, walk, seen, explained, window)?;
    seen.put_end(&mut text, explained)?;
    write_whole(output, &text)?;
    Ok(())
}

/// Writes the story of a journal of 1 to `MOST_PROCS` processes as text: a line for each step that the window has, with those
/// whom it stalled below it; then a line for each port that was made, which calls waited longest, and who waits or is outside in
/// the end. Steps and the numbers of entries are counted from 1. The lines of steps are in colours if these are asked for. Calls
/// that the journal's clock cancels are told to have timed out. The journal is walked along twice: once for what must be known
/// before the first line, and then line by line. Lines are written as soon as they are many, and let go.
pub fn write_story<W: Sink>(
    alloc: Global,
    journal: &ShortJournal,
    window: Window,
    paint: Paint,
    output: &mut W,
) -> Result<(), ViewFault>
    requires head { IsHead journal.now.head }
    requires few { length journal.now.entries < 2 ^ 32 - 1 }
    ensures whole { OnOk result (Appends (W.contents output.old) (W.contents output.new)
        (painted_text paint window journal.now.head journal.now.entries (told journal.now.head journal.now.entries))) }
    ensures beginning { OnErr result (AppendsBeginning (W.contents output.old) (W.contents output.new)
        (painted_text paint window journal.now.head journal.now.entries (told journal.now.head journal.now.entries))) }

    // One write failed, or none where memory was refused.
    ensures err { IfErr result (Fails (W.failures output.old) (W.failures output.new)) }
    ensures ok { OnOk result (W.failures output.new ≡ W.failures output.old) }
{
    let known = Known::of(alloc, journal)?;
    let explained = Explained::new(journal, &known, paint);
    let mut walk = Walk::new(alloc, journal)?;
    let mut seen = Seen::new(alloc)?;
    write_explained(output, &mut walk, &mut seen, &explained, window)
}
