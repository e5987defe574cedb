//! What was asked, and how it ended: the boxes and the bars of a drawing.

ghost use Rattle.std.specs.Prelude.{◌≡◌, ◌<◌, ◌-◌, ◌^◌, IfOk, filter, length};
ghost use Rattle.hub_picture.specs.Drawings.{asked, ended_by, is_shown, part_in, shows};
ghost use Rattle.hub_story.specs.Ends.{ended_at};

use crate::Window;
use hub_base::{Entry, Pid};
use hub_core::{CaseRoom, ShortEntries};
use hub_story::{Part, Story, Told, part_of};
use std::alloc::{AllocError, Global};

/// An entry, and how it ended.
#[derive(Drop)]
pub struct Asked {
    /// Its place in the journal, counted from 0.
    pub place: u32,
    /// The entry.
    pub entry: Entry,
    /// What it was told at last, and by whose step. `None` while it waits.
    pub ended: Option<Told>,
    /// What the clock has to do with that.
    pub part: Part,
}

/// What a list of entries is for.
#[derive(Clone, Copy)]
pub(crate) enum Shown {
    /// A box for each entry.
    Boxes,
    /// A bar for each that waited.
    Bars,
}

/// By which step it ended.
pub(crate) fn ended_by(ended: Option<Told>) -> Option<u32>
    ensures { result ≡ ended_by ended }
{
    match ended {
        Some(end) => Some(end.by),
        None => None,
    }
}

/// The same of the entry at this place. What it was told stays where it is, since few entries of a long journal are
/// shown.
fn until_at(story: &Story, place: usize) -> Option<u32>
    ensures { result ≡ ended_by (ended_at story.now place) }
{
    match story.ends.get(place) {
        Some(Some(told)) => match story.told.get(*told as usize) {
            Some(end) => Some(end.by),
            None => None,
        },
        _ => None,
    }
}

/// Whether an entry that a step ended, or that still waits, is shown.
pub(crate) fn shows(shown: Shown, window: Window, place: u32, until: Option<u32>) -> bool
    ensures { result ≡ shows shown window place until }
{
    match shown {
        Shown::Boxes => window.has(place),
        Shown::Bars => window.shows(place, until),
    }
}

/// Whether the entry at this place is shown. When it ended is looked up only for bars.
fn shows_at(shown: Shown, window: Window, story: &Story, place: u32) -> bool
    ensures { result ≡ shows shown window place (ended_by (ended_at story.now place)) }
{
    let until = match shown {
        Shown::Boxes => None,
        Shown::Bars => until_at(story, place as usize),
    };
    shows(shown, window, place, until)
}

/// What the clock has to do with how an entry ended.
fn part_in(clock: Option<Pid>, entries: &ShortEntries, ended: Option<Told>) -> Part
    ensures { result ≡ part_in clock entries.now ended }
{
    match ended {
        Some(end) => part_of(clock, entries, &end),
        None => Part::NoPart,
    }
}

/// The entries that are shown, in order. None behind the window is.
pub(crate) fn asked_in(
    alloc: Global,
    shown: Shown,
    window: Window,
    clock: Option<Pid>,
    entries: &ShortEntries,
    story: &Story,
) -> Result<Vec<Asked>, AllocError>
    requires few { length entries.now < 2 ^ 32 - 1 }
    ensures { IfOk result (λ all.
        all.items ≡ filter (is_shown shown window) (asked clock entries.now story.now 0 entries.now)) }
{
    let mut all = Vec::new(alloc);
    let mut room = CaseRoom::new();
    for number in 0..entries.len().min(window.end as usize) {
        let place = number as u32;
        if shows_at(shown, window, story, place) {
            let ended = story.end(number);
            all.push(Asked {
                place,
                entry: entries.entry(number, &mut room).to_owned(),
                ended,
                part: part_in(clock, entries, ended),
            })?;
        }
    }
    Ok(all)
}
