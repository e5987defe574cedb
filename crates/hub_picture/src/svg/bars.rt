//! The bars of calls that waited.

ghost use Rattle.hub_picture.specs.Reading.{Elements};

use super::rect::{Rect, put_rect};
use crate::Asked;
use crate::asked::ended_by;
use crate::frame::Frame;
use crate::piece::put_filled;
use hub_base::Pid;
use hub_story::Told;
use std::alloc::AllocError;

/// Appends the knob of a wait that ended so.
fn put_knob(out: &mut Vec<u8>, frame: Frame, pid: Pid, end: &Told) -> Result<(), AllocError>
    ensures { Elements out.old out.new result }
{
    put_filled(
        out,
        &[b"<circle cx=\"", b"\" cy=\"", b"\" r=\"", b"\"/>"],
        &[
            frame.x(end.by),
            frame.y(pid.0),
            frame.scale.sizes().thick + 1,
        ],
    )
}

/// The same where the band has the end.
fn put_knob_in(
    out: &mut Vec<u8>,
    frame: Frame,
    pid: Pid,
    ended: Option<Told>,
) -> Result<(), AllocError>
    ensures { Elements out.old out.new result }
{
    match ended {
        Some(end) if frame.steps.has(end.by) => put_knob(out, frame, pid, &end),
        _ => Ok(()),
    }
}

/// Where the bar stands.
fn rect_of(frame: Frame, asked: &Asked) -> Rect {
    let x = frame.x(asked.place);
    let end = frame.x(frame.until(ended_by(asked.ended)));
    let thick = frame.scale.sizes().thick;
    Rect {
        x,
        y: frame.y(asked.entry.pid.0) - thick,
        width: end.saturating_sub(x),
        height: 2 * thick,
    }
}

/// Appends the bar of a call, and its knob.
pub(crate) fn put_bar(out: &mut Vec<u8>, frame: Frame, asked: &Asked) -> Result<(), AllocError>
    ensures { Elements out.old out.new result }
{
    put_rect(out, rect_of(frame, asked))?;
    put_knob_in(out, frame, asked.entry.pid, asked.ended)
}
