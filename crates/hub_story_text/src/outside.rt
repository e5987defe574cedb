//! Who is outside the hub in the end.

ghost use Rattle.std.specs.Prelude.{◌≡◌, ◌++◌, OnOk, codes};
ghost use Rattle.std.specs.List.{flat_map};
ghost use Rattle.hub_story.specs.Leavers.{leavers};
ghost use Rattle.hub_story.specs.Waiting.{still_waiting};
ghost use Rattle.hub_story_text.specs.Explained.{IsExplained, entries_of, told_of};
ghost use Rattle.hub_story_text.specs.OutsideText.{last_words, outside_line, outside_text, outsider_words};

use crate::explained::Explained;
use crate::numbers::{number_of, put_number};
use hub_story::{Outsider, Told, other_outsiders, outside_of};
use std::alloc::AllocError;

/// Appends a last step.
fn put_last(out: &mut Vec<u8>, last: Option<u32>) -> Result<(), AllocError>
    ensures { OnOk result (out.new.items ≡ out.old.items ++ last_words last) }
{
    match last {
        Some(place) => put_number(out, b", last at step ", number_of(place)),
        None => out.extend_from_slice(b", never called"),
    }
}

/// Appends behind these words a process, and its last step.
fn put_outsider(out: &mut Vec<u8>, words: &[u8], outsider: &Outsider) -> Result<(), AllocError>
    ensures { OnOk result (out.new.items ≡ out.old.items ++ outsider_words words.now outsider.now) }
{
    out.extend_from_slice(words)?;
    put_number(out, b"P", outsider.pid.0.into())?;
    put_last(out, outsider.last)
}

/// Appends these, each behind a semicolon.
fn put_more(out: &mut Vec<u8>, outside: &[Outsider]) -> Result<(), AllocError>
    ensures { OnOk result (out.new.items ≡ out.old.items ++ flat_map (outsider_words (codes "; ")) outside.now) }
{
    for outsider in outside {
        put_outsider(out, b"; ", outsider)?;
    }
    Ok(())
}

/// Appends the line of these, if there are any.
fn put_line(out: &mut Vec<u8>, outside: &[Outsider]) -> Result<(), AllocError>
    ensures { OnOk result (out.new.items ≡ out.old.items ++ outside_line outside.now) }
{
    let [first, more @ ..] = outside else {
        return Ok(());
    };
    put_outsider(out, b"outside the hub: ", first)?;
    put_more(out, more)?;
    out.extend_from_slice(b"\n")
}

/// Appends who is outside the hub in the end, but for the clock, where these left and these wait.
pub(crate) fn put_outside(
    out: &mut Vec<u8>,
    explained: &Explained,
    left: &[Told],
    waiting: &[Told],
) -> Result<(), AllocError>
    requires explained { IsExplained explained.now }
    requires left { left.now ≡ leavers (entries_of explained.now) (told_of explained.now) }
    requires waiting { waiting.now ≡ still_waiting (told_of explained.now) }
    ensures { OnOk result (out.new.items ≡ out.old.items
        ++ outside_text explained.now.clock (entries_of explained.now) (told_of explained.now)
        explained.now.journal.now.head.procs) }
{
    let alloc = *out.allocator();
    let journal = explained.journal;
    let procs = journal.head().procs;
    let outside = outside_of(alloc, journal.entries(), left, waiting, procs)?;
    let others = other_outsiders(alloc, explained.clock, &outside)?;
    put_line(out, &others)
}
