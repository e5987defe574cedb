//! What is drawn of a journal.

ghost use Rattle.std.specs.Prelude.{◌<◌, ◌-◌, ◌^◌, IfOk, length};
ghost use Rattle.hub_picture.specs.Drawings.{IsDrawingOf};

use crate::shapes::put_shapes;
use crate::{Arrow, Asked, Held, Lane, Strip, Waiter, Window};
use hub_base::{NoMemory, Pid};
use hub_core::ShortJournal;
use hub_story::{Outsider, Story, Told, clock_in};
use std::alloc::Global;

/// The shapes of a picture, in processes and steps.
#[derive(Drop)]
pub struct Drawing {
    /// How many processes the journal has: each has a lane.
    pub procs: u8,
    /// The process that is the clock, if one is. No field and no row is of it.
    pub clock: Option<Pid>,
    /// The steps that are shown.
    pub window: Window,
    /// The processes: a lane each, until it exits, and one more each time that it is started again.
    pub lanes: Vec<Lane>,
    /// The ports that hold a value at one of them: a strip each.
    pub strips: Vec<Strip>,
    /// The entries of these steps: a box each.
    pub boxes: Vec<Asked>,
    /// The calls that waited at one of them: a bar each, until it ended.
    pub bars: Vec<Asked>,
    /// The values that were on their way at one of them: an arrow each.
    pub arrows: Vec<Arrow>,
    /// How full the ports were, while they held values: a level each, until it changed.
    pub levels: Vec<Held>,
    /// Whoever was stalled by one of them: a band each.
    pub stalls: Vec<Told>,
    /// Whoever waits in vain, and for what: a row each, below the picture.
    pub waiters: Vec<Waiter>,
    /// Whoever is outside the hub where calls wait in the end: a row each below them.
    pub outside: Vec<Outsider>,
}

/// The drawing of a journal by its story, as far as the window shows it. `Err` where memory was refused; 2^32 events or more
/// are taken for that.
pub fn drawing_of(
    alloc: Global,
    journal: &ShortJournal,
    story: &Story,
    window: Window,
) -> Result<Drawing, NoMemory>
    requires few { length journal.now.entries < 2 ^ 32 - 1 }
    ensures { IfOk result (λ drawing. IsDrawingOf journal.now story.now window drawing) }
{
    let shown = window.within(journal.entries().len() as u32);
    let mut drawing = Drawing {
        procs: journal.head().procs,
        clock: clock_in(journal),
        window: shown,
        lanes: Vec::new(alloc),
        strips: Vec::new(alloc),
        boxes: Vec::new(alloc),
        bars: Vec::new(alloc),
        arrows: Vec::new(alloc),
        levels: Vec::new(alloc),
        stalls: Vec::new(alloc),
        waiters: Vec::new(alloc),
        outside: Vec::new(alloc),
    };
    put_shapes(&mut drawing, alloc, shown, journal, story)?;
    Ok(drawing)
}
