//! What a step did to calls that waited.

ghost use Rattle.std.specs.Prelude.{◌≡◌, ◌++◌, true, filter, OnOk};
ghost use Rattle.std.specs.Bool.{OnTrue};
ghost use Rattle.std.specs.List.{AllByRecursion};
ghost use Rattle.hub_story_text.specs.EndsText.{ending_word, ends_other, ends_so, ends_words, is_own_or_fired, with_all_ends, with_ended, with_ends};
ghost use Rattle.hub_story_text.specs.Writing.{LineBecomes};

use crate::cells::{ENDS, close_cell, open_cell};
use crate::numbers::{number_of, put_number};
use hub_base::{Pid, What};
use hub_core::ShortEntries;
use hub_story::{Part, Told, part_of};
use std::alloc::AllocError;

/// How a step ends a call that waits.
#[derive(Clone, Copy)]
pub(crate) enum Ending {
    /// A case of the call fires.
    Frees,
    /// It is cancelled.
    Cancels,
    /// The clock cancels it.
    TimesOut,
    /// It is the clock's, which waits no longer.
    Wakes,
    /// Everyone who is left waits.
    Stalls,
}

/// Whether an event ends a call in this way.
fn ends_so(ending: Ending, part: Part, what: What) -> bool
    ensures { result ≡ ends_so ending part what }
{
    match (ending, part, what) {
        (Ending::Frees, _, What::Fired { .. }) => true,
        (Ending::Cancels, Part::NoPart, What::Cancelled) => true,
        (Ending::TimesOut, Part::OwnStep, What::Cancelled) => true,
        (Ending::Wakes, Part::OwnCall, What::Cancelled | What::Stalled) => true,
        (Ending::Stalls, Part::OwnStep | Part::NoPart, What::Stalled) => true,
        _ => false,
    }
}

/// Whether it so ended a step other than the one at this place.
fn ends_other(
    clock: Option<Pid>,
    entries: &ShortEntries,
    ending: Ending,
    place: u32,
    told: &Told,
) -> bool
    ensures { result ≡ ends_other clock entries.now ending place told.now }
{
    ends_so(ending, part_of(clock, entries, told), told.event.what) && told.asked != place
}

/// The word for it.
fn ending_word(ending: Ending) -> &'static [u8]
    ensures { result.now ≡ ending_word ending }
{
    match ending {
        Ending::Frees => b"frees",
        Ending::Cancels => b"cancels",
        Ending::TimesOut => b"times out",
        Ending::Wakes => b"wakes",
        Ending::Stalls => b"stalls",
    }
}

/// Appends one step more that so ended, to those that begin there.
fn put_ended(out: &mut Vec<u8>, begin: usize, ending: Ending, told: &Told) -> Result<(), AllocError>
    ensures { OnOk result (LineBecomes begin out.old.items out.new.items (λ words. with_ended ending words told.now)) }
{
    if out.len() == begin {
        out.extend_from_slice(ending_word(ending))?;
        return put_number(out, b" ", number_of(told.asked));
    }
    put_number(out, b" ", number_of(told.asked))
}

/// Appends which other steps so ended by the step at this place.
fn put_ends(
    out: &mut Vec<u8>,
    clock: Option<Pid>,
    entries: &ShortEntries,
    ending: Ending,
    place: u32,
    came: &[Told],
) -> Result<(), AllocError>
    ensures { OnOk result (
        out.new.items ≡ out.old.items ++ ends_words ending (filter (ends_other clock entries.now ending place) came.now)) }
{
    let begin = out.len();
    for told in came {
        if ends_other(clock, entries, ending, place, told) {
            put_ended(out, begin, ending, told)?;
        }
    }
    Ok(())
}

/// Which other steps so ended by the step at this place, in the last column.
fn ends_cell(
    out: &mut Vec<u8>,
    start: usize,
    clock: Option<Pid>,
    entries: &ShortEntries,
    ending: Ending,
    place: u32,
    came: &[Told],
) -> Result<(), AllocError>
    ensures { OnOk result (
        LineBecomes start out.old.items out.new.items (λ line. with_ends clock entries.now ending place came.now line)) }
{
    let cell = open_cell(out, start, ENDS)?;
    put_ends(out, clock, entries, ending, place, came)?;
    close_cell(out, cell);
    Ok(())
}

/// Whether all that came is told of the step at this place.
fn are_own(place: u32, came: &[Told]) -> bool
    ensures { OnTrue result (AllByRecursion (λ t. t.asked ≡ place) came.now) }
{
    for told in came {
        if told.asked != place {
            return false;
        }
    }
    true
}

/// Whether all that came is told of the step at this place, or of a case that fired.
fn are_own_or_fired(place: u32, came: &[Told]) -> bool
    ensures { OnTrue result (AllByRecursion (λ t. is_own_or_fired place t ≡ true) came.now) }
{
    for told in came {
        if told.asked != place && !ends_so(Ending::Frees, Part::NoPart, told.event.what) {
            return false;
        }
    }
    true
}

/// Which other steps ended by the step at this place, in the last column. Most steps end no other, and most others free one.
pub(crate) fn ends_cells(
    out: &mut Vec<u8>,
    start: usize,
    clock: Option<Pid>,
    entries: &ShortEntries,
    place: u32,
    came: &[Told],
) -> Result<(), AllocError>
    ensures { OnOk result (
        LineBecomes start out.old.items out.new.items (λ line. with_all_ends clock entries.now place came.now line)) }
{
    if are_own(place, came) {
        return Ok(());
    }
    ends_cell(out, start, clock, entries, Ending::Frees, place, came)?;
    if are_own_or_fired(place, came) {
        return Ok(());
    }
    ends_cell(out, start, clock, entries, Ending::Cancels, place, came)?;
    ends_cell(out, start, clock, entries, Ending::TimesOut, place, came)?;
    ends_cell(out, start, clock, entries, Ending::Wakes, place, came)?;
    ends_cell(out, start, clock, entries, Ending::Stalls, place, came)?;
    Ok(())
}
