//! Who is outside the hub: the last rows of a drawing.

ghost use Rattle.std.specs.Prelude.{◌≡◌, ◌<◌, ◌-◌, ◌^◌, length, IfOk};
ghost use Rattle.hub_picture.specs.Drawings.{outside_in};
ghost use Rattle.hub_story.specs.ByClock.{to_others};

use crate::Window;
use crate::waiters::open_in;
use hub_base::Pid;
use hub_core::ShortJournal;
use hub_story::{Outsider, Story, Told, other_outsiders};
use std::alloc::{AllocError, Global};

/// Whoever is outside the hub in the end but for the clock, where the window goes so far and these calls of others wait there.
pub(crate) fn outside_in(
    alloc: Global,
    window: Window,
    clock: Option<Pid>,
    journal: &ShortJournal,
    story: &Story,
    others: &[Told],
) -> Result<Vec<Outsider>, AllocError>
    requires few { length journal.now.entries < 2 ^ 32 - 1 }
    requires others { others.now ≡ to_others clock story.now.waiting.items }
    ensures { IfOk result (λ all. all.items ≡ outside_in window clock journal.now.head.procs journal.now.entries
        story.now.told.items story.now.waiting.items) }
{
    let count = journal.entries().len() as u32;
    if open_in(window, count, others).is_empty() {
        return Ok(Vec::new(alloc));
    }
    let outside = story.outside(alloc, journal)?;
    other_outsiders(alloc, clock, &outside)
}
