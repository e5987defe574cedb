//! The shapes of a drawing that some bands show.

use crate::asked::{Shown, ended_by, shows};
use crate::levels::shows_level;
use crate::{Arrow, Asked, Drawing, Held, Window};
use hub_story::Told;
use std::alloc::{AllocError, Global};

/// Which things are shown.
trait Shows<T> {
    /// Whether this one is.
    fn shows(&self, thing: &T) -> bool;
}

/// Boxes or bars of entries, as these steps show them.
#[derive(Clone, Copy)]
struct Those(Shown, Window);

impl Shows<Asked> for Those {
    fn shows(&self, asked: &Asked) -> bool {
        shows(self.0, self.1, asked.place, ended_by(asked.ended))
    }
}

impl Shows<Arrow> for Window {
    fn shows(&self, arrow: &Arrow) -> bool {
        has_end(*self, arrow)
    }
}

impl Shows<Held> for Window {
    fn shows(&self, held: &Held) -> bool {
        shows_level(*self, held)
    }
}

impl Shows<Told> for Window {
    fn shows(&self, told: &Told) -> bool {
        self.has(told.by)
    }
}

/// Whether one of these steps is an end of the arrow.
pub(crate) fn has_end(steps: Window, arrow: &Arrow) -> bool {
    steps.has(arrow.passage.sent.told.by) || steps.has(arrow.passage.received.told.by)
}

/// All of these things.
fn all_of<T>(alloc: Global, things: &[T]) -> Result<Vec<&T>, AllocError> {
    let mut all = Vec::new(alloc);
    for thing in things {
        all.push(thing)?;
    }
    Ok(all)
}

/// Those of these things that are shown, in order.
fn shown_of<'a, T, S: Shows<T>>(
    alloc: Global,
    shows: &S,
    things: &[&'a T],
) -> Result<Vec<&'a T>, AllocError> {
    let mut all = Vec::new(alloc);
    for thing in things {
        if shows.shows(*thing) {
            all.push(*thing)?;
        }
    }
    Ok(all)
}

/// Shapes of a drawing, in its order.
#[derive(Drop)]
pub(crate) struct Shapes<'a> {
    /// Whoever was stalled.
    pub stalls: Vec<&'a Told>,
    /// What ports held.
    pub levels: Vec<&'a Held>,
    /// The calls that waited.
    pub bars: Vec<&'a Asked>,
    /// The entries.
    pub boxes: Vec<&'a Asked>,
    /// The values on their way.
    pub arrows: Vec<&'a Arrow>,
}

impl<'a> Shapes<'a> {
    /// All of a drawing.
    pub fn of(alloc: Global, drawing: &'a Drawing) -> Result<Shapes<'a>, AllocError> {
        Ok(Shapes {
            stalls: all_of(alloc, &drawing.stalls)?,
            levels: all_of(alloc, &drawing.levels)?,
            bars: all_of(alloc, &drawing.bars)?,
            boxes: all_of(alloc, &drawing.boxes)?,
            arrows: all_of(alloc, &drawing.arrows)?,
        })
    }

    /// Those of them that these steps show.
    pub fn within(&self, alloc: Global, steps: Window) -> Result<Shapes<'a>, AllocError> {
        Ok(Shapes {
            stalls: shown_of(alloc, &steps, &self.stalls)?,
            levels: shown_of(alloc, &steps, &self.levels)?,
            bars: shown_of(alloc, &Those(Shown::Bars, steps), &self.bars)?,
            boxes: shown_of(alloc, &Those(Shown::Boxes, steps), &self.boxes)?,
            arrows: shown_of(alloc, &steps, &self.arrows)?,
        })
    }
}
