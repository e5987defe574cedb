//! Who may wait for whom where everyone waits.

ghost use Rattle.std.specs.Prelude.{◌≡◌, ◌≤◌};
ghost use Rattle.hub_picture.specs.Reading.{Elements};

use crate::frame::Frame;
use crate::pen::Pen;
use crate::piece::put_filled;
use crate::{Drawing, Waiter};
use hub_story::Told;
use std::alloc::AllocError;

/// Appends in words for whom a call perhaps waits.
pub(crate) fn put_whom_words(out: &mut Vec<u8>, whom: Option<u8>) -> Result<(), AllocError>
    ensures { Elements out.old out.new result }
{
    match whom {
        Some(pid) => put_filled(out, &[b"Perhaps it waits for P", b". "], &[pid.into()]),
        None => Ok(()),
    }
}

/// Where the shaded fields end, on the right of which an arc stands.
fn field_end(frame: Frame, told: &Told) -> u64
    ensures most { result ≤ 2199023255552 }
{
    frame.x(told.by) + frame.scale.sizes().half
}

/// How far the ends of an arc are pulled out: upwards twice as far, so that it meets no arc that goes down.
fn pulled(frame: Frame, told: &Told, other: u8) -> u64 {
    let far = if told.event.pid.0 < other { 24 } else { 48 };
    field_end(frame, told) + far
}

/// The height of its tip: above the box of the other, where no box and no bar is.
fn tip_of(frame: Frame, other: u8) -> u64 {
    frame.y(other) - frame.scale.sizes().size / 2 - 5
}

/// Appends an arc from the lane of the one who waits to the lane of the other.
fn put_arc(out: &mut Vec<u8>, frame: Frame, told: &Told, other: u8) -> Result<(), AllocError>
    ensures { Elements out.old out.new result }
{
    let near = field_end(frame, told);
    let far = pulled(frame, told, other);
    let from = frame.y(told.event.pid.0);
    let to = tip_of(frame, other);
    put_filled(
        out,
        &[
            b"<g class=\"whom\"><title>P",
            b" perhaps waits for P",
            b"</title><path d=\"M",
            b" ",
            b"C",
            b" ",
            b" ",
            b" ",
            b" ",
            b" ",
            b"\"/></g>\n",
        ],
        &[
            told.event.pid.0.into(),
            other.into(),
            near,
            from,
            far,
            from,
            far,
            to,
            near,
            to,
        ],
    )
}

/// The same, where there is another.
fn put_whom(
    out: &mut Vec<u8>,
    frame: Frame,
    told: &Told,
    whom: Option<u8>,
) -> Result<(), AllocError>
    ensures { Elements out.old out.new result }
{
    match whom {
        Some(other) => put_arc(out, frame, told, other),
        None => Ok(()),
    }
}

/// Who waits for whom of a drawing, in the band.
#[derive(Clone, Copy)]
pub(crate) struct Arcs<'a>(pub Frame, pub &'a Drawing);

impl Pen<Waiter> for Arcs<'_> {
    fn put(&self, out: &mut Vec<u8>, waiter: &Waiter) -> Result<(), AllocError> {
        if self.0.steps.has(waiter.told.by) {
            put_whom(out, self.0, &waiter.told, waiter.whom)
        } else {
            Ok(())
        }
    }
}
