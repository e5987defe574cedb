//! Which steps a page tells: all of a window, and of the others those without which they could not be understood.

ghost use Rattle.std.specs.Prelude.{◌≡◌, nat_lt, not, true};
ghost use Rattle.std.specs.List.{list_any};
ghost use Rattle.std.specs.Option.{option_map_or};
ghost use Rattle.hub_laws.specs.Replies.{is_parked};
ghost use Rattle.hub_page.specs.Excerpt.{has_other, has_some, is_end_of, is_lasting, is_told, is_waiting};
ghost use Rattle.hub_page.specs.Known.{IsKnown, entries_of, told_of};
ghost use Rattle.hub_page.specs.Line.{IsLine};

use crate::known::Known;
use crate::line::Line;
use hub_base::{Step, StepRef, What};
use hub_story::{Told, Window};

/// Whether a step asks for what lasts: a port, or its second life; that its process exits, or that another starts again.
fn is_lasting(step: &StepRef<'_>) -> bool
    ensures { result ≡ is_lasting step.now }
{
    matches!(
        step,
        Step::Make(_) | Step::Exit | Step::Start(_) | Step::Reopen { .. }
    )
}

/// Whether the window has this step, if there is one.
fn has_some(window: Window, place: Option<u32>) -> bool
    ensures { result ≡ has_some window place }
{
    match place {
        Some(place) => window.has(place),
        None => false,
    }
}

/// Whether a case of this entry fired, and the window has the other entry of its passage.
fn has_other(known: &Known<'_>, asked: usize, what: What) -> bool
    requires { IsKnown known.now }
    ensures { result ≡ has_other known.now.window (entries_of known.now) (told_of known.now) asked what }
{
    let What::Fired { case, .. } = what else {
        return false;
    };
    match known.entries().case_at(asked, case) {
        Some(_) => has_some(known.window, known.explained.partner(asked)),
        None => false,
    }
}

/// Whether a call was stalled by this event, a step ended of which the window has some, or one ended of whose passage the window has
/// the other entry.
fn is_end_of(known: &Known<'_>, told: &Told) -> bool
    requires { IsKnown known.now }
    ensures { result ≡ is_end_of known.now.window (entries_of known.now) (told_of known.now) told.now }
{
    told.event.what.is_stalled()
        || known.window.touches(told.asked, told.by)
        || has_other(known, told.asked as usize, told.event.what)
}

/// Whether one of these is such an event.
fn any_end_of(known: &Known<'_>, came: &[Told]) -> bool
    requires { IsKnown known.now }
    ensures { result ≡ list_any (is_end_of known.now.window (entries_of known.now) (told_of known.now)) came.now }
{
    came.iter().any(|told| is_end_of(known, told))
}

/// Whether one of these says that a call waits.
fn any_parked(came: &[Told]) -> bool
    ensures { result ≡ list_any (λ t. is_parked t.event.what) came.now }
{
    came.iter().any(|told| told.event.what.is_parked())
}

/// Whether a call that ended so, or not at all, waits until this place.
fn waits_until(first: u32, end: Option<Told>) -> bool
    ensures { result ≡ option_map_or (λ t. not (nat_lt t.by first)) end true }
{
    match end {
        Some(end) => end.by >= first,
        None => true,
    }
}

/// Whether the call of this line waits when the window begins.
fn is_waiting(line: &Line<'_>) -> bool
    requires { IsLine line.now }
    ensures { result ≡ is_waiting line.now.known.now.window (told_of line.now.known.now) line.now.place }
{
    let first = line.known.window.first;
    line.place < first && any_parked(line.came) && waits_until(first, line.past.end)
}

/// Whether the page tells the step of this line.
pub(crate) fn is_told(line: &Line<'_>) -> bool
    requires { IsLine line.now }
    ensures { result ≡ is_told line.now.known.now.window (entries_of line.now.known.now) (told_of line.now.known.now) line.now.place
        line.now.entry.now }
{
    let known = line.known;
    known.window.has(line.place)
        || is_lasting(&line.entry.step)
        || any_end_of(known, line.came)
        || is_waiting(line)
        || has_some(known.window, known.explained.partner(line.place as usize))
}
