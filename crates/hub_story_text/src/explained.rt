//! A journal with what is known of it.

ghost use Rattle.std.specs.Prelude.{◌≡◌, ◌<◌, ◌-◌, ◌^◌, ◌++◌, codes, length, slice_get, OnOk, Some};
ghost use Rattle.hub_story.specs.Levels.{came_by};
ghost use Rattle.hub_story.specs.Partners.{partner_of};
ghost use Rattle.hub_story.specs.Told.{end_of};
ghost use Rattle.hub_story.specs.ByClock.{is_clock};
ghost use Rattle.hub_story_text.specs.Explained.{IsExplained, IsLine, cells_of, entries_of, told_of};
ghost use Rattle.hub_story_text.specs.Known.{IsKnown};
ghost use Rattle.hub_story_text.specs.Paint.{painted_line, shown_colour};

use crate::known::Known;
use crate::lines::{Line, put_cells};
use crate::paint::{Colour, NO_COLOUR, Paint, colour_of};
use hub_base::{NoMemory, Pid};
use hub_core::ShortJournal;
use hub_story::{Told, clock_in, is_clock};

/// A journal, its clock, and what else is known of it.
#[derive(Clone, Copy)]
pub struct Explained<'a> {
    /// The journal.
    pub journal: &'a ShortJournal,
    /// Its clock, if it has one.
    pub clock: Option<Pid>,
    /// What else is known of it.
    pub known: &'a Known,
    /// How the lines of steps are shown.
    pub paint: Paint,
}

/// What stands at this place.
fn item_at<T: Copy>(items: &[T], place: usize) -> T
    requires { place < length items.now }
    ensures { slice_get items.now place ≡ Some result }
{
    items[place]
}

impl<'a> Explained<'a> {
    /// The journal of which this is known, whose lines are shown so.
    pub fn new(journal: &'a ShortJournal, known: &'a Known, paint: Paint) -> Explained<'a>
        requires few { length journal.now.entries < 2 ^ 32 - 1 }
        requires known { IsKnown journal.now known.now }
        ensures explained { IsExplained result }
        ensures journal { result.journal.now ≡ journal.now }
        ensures paint { result.paint ≡ paint }
    {
        Explained {
            journal,
            clock: clock_in(journal),
            known,
            paint,
        }
    }

    /// How the entry at this place ended, by whose step these came; nothing while it waits.
    pub fn end(&self, place: usize, came: &[Told]) -> Option<Told>
        requires explained { IsExplained self.now }
        requires within { place < length (entries_of self.now) }
        requires came { came.now ≡ came_by place (told_of self.now) }
        ensures { result ≡ end_of (told_of self.now) place }
    {
        self.known.ends.end(place, came)
    }

    /// The other entry of the passage in which it stands.
    pub fn partner(&self, place: usize) -> Option<u32>
        requires explained { IsExplained self.now }
        requires within { place < length (entries_of self.now) }
        ensures { result ≡ partner_of (entries_of self.now) (told_of self.now) place }
    {
        item_at(&self.known.partners, place)
    }
}

/// Appends a line, without the newline.
fn put_told_cells(out: &mut Vec<u8>, explained: &Explained, line: &Line<'_>) -> Result<(), NoMemory>
    requires explained { IsExplained explained.now }
    requires line { IsLine explained.now line.now }
    ensures { OnOk result (out.new.items ≡ out.old.items ++ cells_of explained.now line.now) }
{
    let partner = explained.partner(line.place as usize);
    put_cells(
        out,
        explained.clock,
        explained.journal.entries(),
        partner,
        line,
    )
}

/// Appends a line.
pub(crate) fn put_line(
    out: &mut Vec<u8>,
    explained: &Explained,
    line: &Line<'_>,
) -> Result<(), NoMemory>
    requires explained { IsExplained explained.now }
    requires line { IsLine explained.now line.now }
    ensures { OnOk result (out.new.items ≡ out.old.items ++ (cells_of explained.now line.now ++ codes "\n")) }
{
    put_told_cells(out, explained, line)?;
    out.extend_from_slice(b"\n")?;
    Ok(())
}

/// The colour in which the line of an entry of this process is shown that ended so, if any.
fn shown_colour(explained: &Explained, pid: Pid, end: Option<Told>) -> Option<Colour>
    ensures { result ≡ shown_colour explained.now.paint (is_clock explained.now.clock pid) end }
{
    match explained.paint {
        Paint::Plain => None,
        Paint::Colours => colour_of(is_clock(explained.clock, pid), end),
    }
}

/// Appends a line as it is shown.
pub(crate) fn put_painted_line(
    out: &mut Vec<u8>,
    explained: &Explained,
    line: &Line<'_>,
) -> Result<(), NoMemory>
    requires explained { IsExplained explained.now }
    requires line { IsLine explained.now line.now }
    ensures { OnOk result (out.new.items ≡ out.old.items
        ++ painted_line explained.now.paint explained.now.clock (entries_of explained.now) (told_of explained.now)
        line.now.place line.now.entry.now line.now.came.now) }
{
    let Some(colour) = shown_colour(explained, line.entry.pid, line.end) else {
        return put_line(out, explained, line);
    };
    out.extend_from_slice(colour.text())?;
    put_told_cells(out, explained, line)?;
    out.extend_from_slice(NO_COLOUR)?;
    Ok(())
}
