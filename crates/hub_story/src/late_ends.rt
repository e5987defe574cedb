//! How calls ended that waited: the events by which they did, found by the places of their entries.

ghost use Rattle.std.specs.Prelude.{◌≡◌, ◌<◌, List, filter, length, slice_index_or, IfOk, None};
ghost use Rattle.hub_base.specs.Journal.{JournalView};
ghost use Rattle.hub_story.specs.declared.told.Told.{Told as Event};
ghost use Rattle.hub_story.specs.Ends.{AreEnds, told_at};
ghost use Rattle.hub_story.specs.LateEnds.{AreLate};
ghost use Rattle.hub_story.specs.Levels.{came_by};
ghost use Rattle.hub_story.specs.Outlines.{ends_late};
ghost use Rattle.hub_story.specs.Told.{end_of, ends_it, told};

use crate::Told;
use crate::ends::{end_at, note_end};
use crate::told_list::ToldList;
use std::alloc::{AllocError, Global};

/// The ends of calls that came by later steps than their own.
#[derive(Drop)]
pub struct LateEnds {
    /// In the order in which they came.
    ended: ToldList,
    /// For each entry where its own stands among them.
    places: Vec<Option<u32>>,
}

/// Whether the event ended the entry at this place.
fn ends_it(place: usize, told: &Told) -> bool
    ensures { result ≡ ends_it place told.now }
{
    told.asked as usize == place && !told.event.what.is_parked()
}

/// The event that ended the entry at this place, of those that came by its own step.
fn own_end(place: usize, came: &[Told]) -> Option<Told>
    ensures { result ≡ end_of came.now place }
{
    for told in came {
        if ends_it(place, told) {
            return Some(*told);
        }
    }
    None
}

/// Of so many entries, where among these stands how each ended.
fn places_of(alloc: Global, ended: &ToldList, count: usize) -> Result<Vec<Option<u32>>, AllocError>
    ensures { IfOk result (λ places. AreEnds ended.now count places.items) }
{
    let mut places = vec![in alloc; None; count]?;
    for place in 0..ended.len() {
        note_end(&mut places, place, &ended.told(place))?;
    }
    Ok(places)
}

impl LateEnds {
    /// These, of so many entries.
    pub fn of(alloc: Global, ended: ToldList, count: usize) -> Result<LateEnds, AllocError>
        ensures { (all : List Event) → ended ≡ filter ends_late all → IfOk result (AreLate all count) }
    {
        let places = places_of(alloc, &ended, count)?;
        Ok(LateEnds { ended, places })
    }

    /// How the entry at this place ended, if it did by a later step than its own.
    pub fn at(&self, place: usize) -> Option<Told>
        ensures { result ≡ told_at self.now.ended (slice_index_or self.now.places.items place None) }
    {
        match end_at(&self.places, place) {
            Some(end) => self.ended.get(end as usize),
            None => None,
        }
    }

    /// How it ended, where these came by its step: by one of them, or later; nothing while it waits.
    pub fn end(&self, place: usize, came: &[Told]) -> Option<Told>
        ensures { (j : JournalView) → AreLate (told j.head j.entries) (length j.entries) self.now → place < length j.entries
            → came.now ≡ came_by place (told j.head j.entries) → result ≡ end_of (told j.head j.entries) place }
    {
        match own_end(place, came) {
            Some(end) => Some(end),
            None => self.at(place),
        }
    }
}
