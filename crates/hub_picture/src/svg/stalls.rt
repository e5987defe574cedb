//! The bands of those who were stalled.

ghost use Rattle.std.specs.Prelude.{codes};
ghost use Rattle.hub_picture.specs.Reading.{Elements, Opens};

use super::rect::{Rect, put_rect};
use crate::frame::{Frame, number_of};
use crate::pen::Pen;
use crate::piece::{put, put_filled};
use hub_story::Told;
use std::alloc::AllocError;

/// Appends where the band begins, and what is told where one points at it.
fn put_opening(out: &mut Vec<u8>, told: &Told) -> Result<(), AllocError>
    ensures { Opens out.old out.new (codes "g") result }
{
    put_filled(
        out,
        &[
            b"<g class=\"stall\"><title>step ",
            b" stalls process ",
            b", which has waited since step ",
            b"\n</title>",
        ],
        &[
            number_of(told.by),
            told.event.pid.0.into(),
            number_of(told.asked),
        ],
    )
}

/// Where the band stands.
fn rect_of(frame: Frame, told: &Told) -> Rect {
    let sizes = frame.scale.sizes();
    Rect {
        x: frame.x(told.by) - sizes.half,
        y: frame.y(told.event.pid.0) - sizes.lane / 2,
        width: 2 * sizes.half,
        height: sizes.lane,
    }
}

/// Appends the band of a process that was stalled.
fn put_stall(out: &mut Vec<u8>, frame: Frame, told: &Told) -> Result<(), AllocError>
    ensures { Elements out.old out.new result }
{
    put_opening(out, told)?;
    put_rect(out, rect_of(frame, told))?;
    put(out, b"</g>\n")
}

/// Stalls, where the band has their step.
impl Pen<Told> for Frame {
    fn put(&self, out: &mut Vec<u8>, told: &Told) -> Result<(), AllocError> {
        if self.steps.has(told.by) {
            put_stall(out, *self, told)
        } else {
            Ok(())
        }
    }
}
