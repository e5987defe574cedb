//! The shapes of a drawing, put in kind by kind. What is put in belongs to the drawing at once, so that a function that
//! is refused has nothing of it to drop.

ghost use Rattle.std.specs.Prelude.{◌≡◌, ◌<◌, ◌-◌, ◌^◌, IfOk, OnOk, length};
ghost use Rattle.hub_picture.specs.Drawings.{IsDrawnIn};
ghost use Rattle.hub_picture.specs.Levels.{all_levels, all_strips, shown_strips};
ghost use Rattle.hub_picture.specs.Shapes.{HasAsked, HasMoved};
ghost use Rattle.hub_story.specs.ByClock.{to_others};
ghost use Rattle.hub_story.specs.Clock.{clock_of};

use crate::arrows::arrows_in;
use crate::asked::{Shown, asked_in};
use crate::drawing::Drawing;
use crate::lanes::lanes_of;
use crate::levels::{Levels, levels_in};
use crate::moves::Moves;
use crate::outside::outside_in;
use crate::stalls::all_stalled;
use crate::strips::strips_of;
use crate::waiters::waiters_in;
use crate::{Strip, Window};
use hub_core::ShortJournal;
use hub_story::{Story, Told, to_others};
use std::alloc::{AllocError, Global};

/// The strips of the ports that were made.
fn all_strips(alloc: Global, moves: &Moves<'_>) -> Result<Vec<Strip>, AllocError>
    ensures { IfOk result (λ strips. strips.items ≡ all_strips moves.now.entries.now moves.now.told.now) }
{
    strips_of(alloc, moves.entries, moves.told, &moves.made)
}

/// The strips that are shown, and all levels.
fn all_levels(alloc: Global, window: Window, moves: &Moves<'_>) -> Result<Levels, AllocError>
    ensures strips { IfOk result (λ all.
        all.strips.items ≡ shown_strips window moves.now.entries.now moves.now.told.now) }
    ensures levels { IfOk result (λ all.
        all.held.items ≡ all_levels window moves.now.entries.now moves.now.told.now) }
{
    let made = all_strips(alloc, moves)?;
    levels_in(alloc, window, moves, &made)
}

/// Puts in what processes ask, whom a step stalled, and who is outside in the end, where these calls of others wait.
fn put_asked(
    drawing: &mut Drawing,
    alloc: Global,
    window: Window,
    journal: &ShortJournal,
    story: &Story,
    others: &[Told],
) -> Result<(), AllocError>
    requires few { length journal.now.entries < 2 ^ 32 - 1 }
    requires others { others.now ≡ to_others drawing.old.clock story.now.waiting.items }
    ensures { OnOk result (HasAsked journal.now story.now window drawing.old drawing.new) }
{
    let (clock, entries) = (drawing.clock, journal.entries());
    drawing.lanes = lanes_of(alloc, journal.head().procs, entries, &story.told)?;
    drawing.boxes = asked_in(alloc, Shown::Boxes, window, clock, entries, story)?;
    drawing.bars = asked_in(alloc, Shown::Bars, window, clock, entries, story)?;
    drawing.stalls = to_others(alloc, clock, &all_stalled(alloc, window, &story.told)?)?;
    drawing.outside = outside_in(alloc, window, clock, journal, story, others)?;
    Ok(())
}

/// Puts in what passes the ports, and who waits there in vain; whom a step stalled is in it.
fn put_moved(
    drawing: &mut Drawing,
    alloc: Global,
    window: Window,
    moves: &Moves<'_>,
    waiting: &[Told],
) -> Result<(), AllocError>
    requires few { length moves.now.entries.now < 2 ^ 32 - 1 }
    ensures { OnOk result (
        HasMoved moves.now.entries.now moves.now.told.now waiting.now window drawing.old drawing.new) }
{
    let Levels { strips, held } = all_levels(alloc, window, moves)?;
    drawing.strips = strips;
    drawing.levels = held;
    drawing.arrows = arrows_in(alloc, window, moves)?;
    drawing.waiters = waiters_in(alloc, window, moves, &drawing.stalls, waiting)?;
    Ok(())
}

/// Puts in all shapes, in place of those that are in it.
pub(crate) fn put_shapes(
    drawing: &mut Drawing,
    alloc: Global,
    window: Window,
    journal: &ShortJournal,
    story: &Story,
) -> Result<(), AllocError>
    requires few { length journal.now.entries < 2 ^ 32 - 1 }
    requires procs { drawing.old.procs ≡ journal.now.head.procs }
    requires window { drawing.old.window ≡ window }
    requires clock { drawing.old.clock ≡ clock_of journal.now.head journal.now.entries }
    ensures { OnOk result (IsDrawnIn window journal.now story.now drawing.new) }
{
    let others = to_others(alloc, drawing.clock, &story.waiting)?;
    put_asked(drawing, alloc, window, journal, story, &others)?;
    let moves = Moves::new(alloc, journal.entries(), &story.told)?;
    put_moved(drawing, alloc, window, &moves, &others)
}
