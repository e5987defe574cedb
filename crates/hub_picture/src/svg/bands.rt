//! The bands of a picture, one below the other.
//!
//! Bands are halved until one is left, and each half looks only at those shapes of the whole that it shows. So a shape
//! that few bands show is looked at few times, however many bands there are.

ghost use Rattle.std.specs.Prelude.{◌≡◌, ◌<◌, IfErr, OnErr, OnOk};
ghost use Rattle.hub_replay.specs.ViewFaults.{Fails};
ghost use Rattle.hub_picture.specs.Reading.{Begins, Elements, Goes};

use super::entries::Entries;
use super::lanes::{Lanes, put_ticks};
use super::page::{bands_of, scale_of};
use super::shapes::Shapes;
use super::whom::Arcs;
use crate::asked::Shown;
use crate::frame::{Frame, frame_of, steps_between};
use crate::pen::{put_all, put_each};
use crate::{Arrow, Asked, Drawing, Held};
use hub_replay::{Sink, ViewFault, write_many};
use hub_story::Told;
use std::alloc::AllocError;

/// Appends what stands behind in a band.
fn put_back(
    out: &mut Vec<u8>,
    frame: Frame,
    drawing: &Drawing,
    stalls: &[&Told],
) -> Result<(), AllocError>
    ensures { Elements out.old out.new result }
{
    put_each(out, &Lanes(frame, drawing.clock), &drawing.lanes)?;
    put_ticks(out, frame)?;
    put_all(out, &frame, stalls)
}

/// Appends what stands below.
fn put_below(
    out: &mut Vec<u8>,
    frame: Frame,
    drawing: &Drawing,
    levels: &[&Held],
) -> Result<(), AllocError>
    ensures { Elements out.old out.new result }
{
    put_each(out, &frame, &drawing.strips)?;
    put_all(out, &frame, levels)?;
    put_each(out, &Arcs(frame, drawing), &drawing.waiters)
}

/// Appends what stands before all.
fn put_front(
    out: &mut Vec<u8>,
    frame: Frame,
    bars: &[&Asked],
    boxes: &[&Asked],
    arrows: &[&Arrow],
) -> Result<(), AllocError>
    ensures { Elements out.old out.new result }
{
    put_all(out, &frame, arrows)?;
    put_all(out, &Entries(Shown::Bars, frame), bars)?;
    put_all(out, &Entries(Shown::Boxes, frame), boxes)
}

/// Appends what a band shows of these shapes.
fn put_shapes(
    out: &mut Vec<u8>,
    frame: Frame,
    drawing: &Drawing,
    shapes: &Shapes<'_>,
) -> Result<(), AllocError>
    ensures { Elements out.old out.new result }
{
    put_back(out, frame, drawing, &shapes.stalls)?;
    put_below(out, frame, drawing, &shapes.levels)?;
    put_front(out, frame, &shapes.bars, &shapes.boxes, &shapes.arrows)
}

/// Writes a band with what it shows of these shapes, or leaves it in `text`.
fn write_band<W: Sink>(
    output: &mut W,
    text: &mut Vec<u8>,
    frame: Frame,
    drawing: &Drawing,
    shapes: &Shapes<'_>,
) -> Result<(), ViewFault>
    ensures goes { OnOk result (Goes (W.contents output.old) (W.contents output.new) text.old.items text.new.items) }
    ensures begun { OnErr result (Begins (W.contents output.old) (W.contents output.new) text.old.items) }
    ensures err { IfErr result (Fails (W.failures output.old) (W.failures output.new)) }
    ensures ok { OnOk result (W.failures output.new ≡ W.failures output.old) }
{
    put_shapes(text, frame, drawing, shapes)?;
    write_many(output, text)?;
    Ok(())
}

/// Writes the bands from one to another.
fn write_between<W: Sink>(
    output: &mut W,
    text: &mut Vec<u8>,
    drawing: &Drawing,
    shapes: &Shapes<'_>,
    first: u32,
    end: u32,
) -> Result<(), ViewFault>
    requires { first < end }
    ensures goes { OnOk result (Goes (W.contents output.old) (W.contents output.new) text.old.items text.new.items) }
    ensures begun { OnErr result (Begins (W.contents output.old) (W.contents output.new) text.old.items) }
    ensures err { IfErr result (Fails (W.failures output.old) (W.failures output.new)) }
    ensures ok { OnOk result (W.failures output.new ≡ W.failures output.old) }
{
    let scale = scale_of(drawing);
    let steps = steps_between(scale, drawing, first.into(), end.into());
    let part = shapes.within(*text.allocator(), steps)?;
    if end - first == 1 {
        write_band(
            output,
            text,
            frame_of(scale, drawing, first),
            drawing,
            &part,
        )
    } else {
        let middle = first + (end - first) / 2;
        write_between(output, text, drawing, &part, first, middle)?;
        write_between(output, text, drawing, &part, middle, end)
    }
}

/// Writes `text`, and behind it the bands. The last of them may be left in `text`.
pub(crate) fn write_bands<W: Sink>(
    output: &mut W,
    text: &mut Vec<u8>,
    drawing: &Drawing,
) -> Result<(), ViewFault>
    ensures goes { OnOk result (Goes (W.contents output.old) (W.contents output.new) text.old.items text.new.items) }
    ensures begun { OnErr result (Begins (W.contents output.old) (W.contents output.new) text.old.items) }
    ensures err { IfErr result (Fails (W.failures output.old) (W.failures output.new)) }
    ensures ok { OnOk result (W.failures output.new ≡ W.failures output.old) }
{
    let bands = bands_of(drawing);
    if bands == 0 {
        return Ok(());
    }
    let shapes = Shapes::of(*text.allocator(), drawing)?;
    write_between(output, text, drawing, &shapes, 0, bands)
}
