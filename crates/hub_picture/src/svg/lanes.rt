//! What stands behind the shapes of a band.

ghost use Rattle.std.specs.Prelude.{codes};
ghost use Rattle.hub_picture.specs.Reading.{Elements, Opens};

use crate::Lane;
use crate::frame::{Frame, number_of};
use crate::pen::Pen;
use crate::piece::{put, put_filled};
use hub_base::Pid;
use hub_story::is_clock;
use std::alloc::AllocError;

/// Appends a lane, until its process exits, and where its name begins.
fn put_line(out: &mut Vec<u8>, frame: Frame, lane: &Lane) -> Result<(), AllocError>
    ensures { Opens out.old out.new (codes "text") result }
{
    let x = frame.since(lane.begun);
    let y = frame.y(lane.pid);
    put_filled(
        out,
        &[
            b"<path class=\"lane\" d=\"M",
            b" ",
            b"L",
            b" ",
            b"\"/><text class=\"name\" x=\"",
            b"\" y=\"",
            b"\">",
        ],
        &[x, y, frame.x(frame.until(lane.exited)), y, x - 8, y + 4],
    )
}

/// Appends the name of a process, or of the clock.
fn put_name(out: &mut Vec<u8>, pid: u8, clock: bool) -> Result<(), AllocError>
    ensures { Elements out.old out.new result }
{
    if clock {
        put_filled(
            out,
            &[b"clock<title>P", b", the clock</title>"],
            &[pid.into()],
        )
    } else {
        put_filled(out, &[b"P"], &[pid.into()])
    }
}

/// The lanes of a band, of which one may be the clock's.
#[derive(Clone, Copy)]
pub(crate) struct Lanes(pub Frame, pub Option<Pid>);

impl Lanes {
    /// Appends a lane, with its name.
    fn put_lane(self, out: &mut Vec<u8>, lane: &Lane) -> Result<(), AllocError>
        ensures { Elements out.old out.new result }
    {
        put_line(out, self.0, lane)?;
        put_name(out, lane.pid, is_clock(self.1, Pid(lane.pid)))?;
        put(out, b"</text>\n")
    }
}

/// Lanes, where they go on in the band.
impl Pen<Lane> for Lanes {
    fn put(&self, out: &mut Vec<u8>, lane: &Lane) -> Result<(), AllocError> {
        if self.0.steps.first <= self.0.until(lane.exited) && self.0.has_begun(lane.begun) {
            self.put_lane(out, lane)
        } else {
            Ok(())
        }
    }
}

/// Appends the number of a step.
fn put_tick(out: &mut Vec<u8>, frame: Frame, place: u32) -> Result<(), AllocError>
    ensures { Elements out.old out.new result }
{
    put_filled(
        out,
        &[
            b"<text class=\"tick\" x=\"",
            b"\" y=\"",
            b"\">",
            b"</text>\n",
        ],
        &[
            frame.x(place),
            frame.y(0) - frame.scale.sizes().size,
            number_of(place),
        ],
    )
}

/// The same where it is one that is told.
fn put_tick_in(out: &mut Vec<u8>, frame: Frame, place: u32) -> Result<(), AllocError>
    ensures { Elements out.old out.new result }
{
    if number_of(place) % frame.scale.sizes().tick == 0 {
        put_tick(out, frame, place)
    } else {
        Ok(())
    }
}

/// Appends the numbers of the steps of a band.
pub(crate) fn put_ticks(out: &mut Vec<u8>, frame: Frame) -> Result<(), AllocError>
    ensures { Elements out.old out.new result }
{
    for step in 0..frame.steps.end.saturating_sub(frame.steps.first) {
        match put_tick_in(out, frame, frame.steps.first + step) {
            Ok(()) => {}
            Err(AllocError) => return Err(AllocError),
        }
    }
    Ok(())
}
