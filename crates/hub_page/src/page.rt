//! The whole page. It is written as it goes.

ghost use Rattle.std.specs.Prelude.{◌≡◌, ◌<◌, ◌-◌, ◌^◌, length, IfErr, OnErr, OnOk};
ghost use Rattle.std.specs.Io.KnownBytes.{Appends};
ghost use Rattle.hub_base.specs.Head.{IsHead};
ghost use Rattle.hub_replay.specs.Devices.{AppendsBeginning};
ghost use Rattle.hub_replay.specs.ViewFaults.{Fails};
ghost use Rattle.hub_story.specs.Told.{told};
ghost use Rattle.hub_page.specs.Known.{IsKnown, entries_of};
ghost use Rattle.hub_page.specs.KnownPage.{end_of};
ghost use Rattle.hub_page.specs.Page.{page_text};
ghost use Rattle.hub_page.specs.Past.{IsPast};

use crate::data::{whole_blocks, write_data};
use crate::known::Known;
use crate::past::Past;
use crate::viewer::{write_after, write_before, write_between};
use hub_core::ShortJournal;
use hub_replay::{Sink, ViewFault, write_whole};
use hub_story::Window;
use hub_story_text::{Explained, HEADING, Paint};
use std::alloc::Global;

/// Writes the end of the story, all of whose steps were taken in.
fn write_end<W: Sink>(
    output: &mut W,
    alloc: Global,
    past: &Past,
    known: &Known<'_>,
) -> Result<(), ViewFault>
    requires known { IsKnown known.now }
    requires past { IsPast known.now (length (entries_of known.now)) past.now }
    ensures whole { OnOk result (Appends (W.contents output.old) (W.contents output.new) (end_of known.now)) }
    ensures beginning { OnErr result (AppendsBeginning (W.contents output.old) (W.contents output.new) (end_of known.now)) }
    ensures err { IfErr result (Fails (W.failures output.old) (W.failures output.new)) }
    ensures ok { OnOk result (W.failures output.new ≡ W.failures output.old) }
{
    let mut text = Vec::from_slice(alloc, HEADING)?;
    past.seen.put_end(&mut text, &known.explained)?;
    write_whole(output, &text)?;
    Ok(())
}

/// Writes the page of these steps of a journal for a browser, which needs no other file: what each step asks and what is told by it,
/// of blocks of all steps what they have in common, and the end of the story as text; and round these the files of the folder `viewer`.
/// Of the other steps it has those without which these could not be understood. The journal is walked along twice: once for what must be
/// known before the first step is told, and then step by step. No more of the page is kept in memory than a block.
pub fn write_page<W: Sink>(
    alloc: Global,
    journal: &ShortJournal,
    window: Window,
    output: &mut W,
) -> Result<(), ViewFault>
    requires head { IsHead journal.now.head }
    requires few { length journal.now.entries < 2 ^ 32 - 1 }
    ensures whole { OnOk result (Appends (W.contents output.old) (W.contents output.new)
        (page_text window journal.now.head journal.now.entries (told journal.now.head journal.now.entries))) }
    ensures beginning { OnErr result (AppendsBeginning (W.contents output.old) (W.contents output.new)
        (page_text window journal.now.head journal.now.entries (told journal.now.head journal.now.entries))) }

    // One write failed, or none where memory was refused.
    ensures err { IfErr result (Fails (W.failures output.old) (W.failures output.new)) }
    ensures ok { OnOk result (W.failures output.new ≡ W.failures output.old) }
{
    let found = hub_story_text::Known::of(alloc, journal)?;
    let known = Known {
        explained: Explained::new(journal, &found, Paint::Plain),
        window: whole_blocks(journal.entries().len(), window),
    };
    let mut past = Past::new(alloc, &known)?;
    write_before(output)?;
    write_data(output, alloc, &mut past, &known, window)?;
    write_between(output)?;
    write_end(output, alloc, &past, &known)?;
    write_after(output)?;
    Ok(())
}
