//! How each entry ended, and who waits.

ghost use Rattle.std.specs.Prelude.{◌≡◌, None, slice_index_or, IfOk, OnOk};
ghost use Rattle.std.specs.List.{filter};
ghost use Rattle.hub_story.specs.Ends.{AreEnds, waits_by_place, with_end};
ghost use Rattle.hub_story.specs.Waiting.{stalled_by};

use crate::Told;
use std::alloc::{AllocError, Global};

/// What stands at this place of such a table, if anything.
pub(crate) fn end_at(ends: &[Option<u32>], place: usize) -> Option<u32>
    ensures { result ≡ slice_index_or ends.now place None }
{
    *ends.get(place)?
}

/// Takes in the event at this place. The first that is not `Parked` ends its entry. A place that does not fit finds no memory.
pub(crate) fn note_end(
    ends: &mut Vec<Option<u32>>,
    place: usize,
    told: &Told,
) -> Result<(), AllocError>
    ensures { OnOk result (ends.new.items ≡ with_end ends.old.items place told.now) }
{
    if place > u32::MAX as usize {
        return Err(AllocError);
    }
    let asked = told.asked as usize;
    if !told.event.what.is_parked() && asked < ends.len() && ends[asked].is_none() {
        ends[asked] = Some(place as u32);
    }
    Ok(())
}

/// Where it is told how each of so many entries ended; nothing while it waits.
pub(crate) fn ends_of(
    alloc: Global,
    told: &[Told],
    count: usize,
) -> Result<Vec<Option<u32>>, AllocError>
    ensures { IfOk result (λ ends. AreEnds told.now count ends.items) }
{
    let mut ends = vec![in alloc; None; count]?;
    for (place, told) in told.iter().enumerate() {
        note_end(&mut ends, place, told)?;
    }
    Ok(ends)
}

/// Whether the call that was parked so had no other event.
fn waits(ends: &[Option<u32>], told: &Told) -> bool
    ensures { result ≡ waits_by_place ends.now told.now }
{
    told.event.what.is_parked() && end_at(ends, told.asked as usize).is_none()
}

/// The calls that wait in the end, by arrival.
pub(crate) fn waiting_of(
    alloc: Global,
    told: &[Told],
    ends: &[Option<u32>],
) -> Result<Vec<Told>, AllocError>
    ensures { IfOk result (λ waiting. waiting.items ≡ filter (waits_by_place ends.now) told.now) }
{
    let mut waiting = Vec::new(alloc);
    for told in told {
        if waits(ends, told) {
            waiting.push(*told)?;
        }
    }
    Ok(waiting)
}

/// The calls that ended as everyone waited after the entry at this place, by arrival.
pub(crate) fn stalled_by(alloc: Global, told: &[Told], place: u32) -> Result<Vec<Told>, AllocError>
    ensures { IfOk result (λ stalled. stalled.items ≡ stalled_by told.now place) }
{
    let mut stalled = Vec::new(alloc);
    for told in told {
        if told.by == place && told.event.what.is_stalled() {
            stalled.push(*told)?;
        }
    }
    Ok(stalled)
}
