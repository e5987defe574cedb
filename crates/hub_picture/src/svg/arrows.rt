//! The arrows of values on their way.

ghost use Rattle.std.specs.Prelude.{codes};
ghost use Rattle.hub_picture.specs.Reading.{Elements, Opens};

use super::shapes::has_end;
use crate::Arrow;
use crate::frame::{Frame, number_of};
use crate::pen::Pen;
use crate::piece::{Piece, hue, put, put_filled, put_pieces};
use hub_base::{Pid, Port};
use hub_story::Told;
use std::alloc::AllocError;

/// The side of a process' box that the other's faces.
fn side(frame: Frame, pid: Pid, other: Pid) -> u64 {
    let (y, half) = (frame.y(pid.0), frame.scale.sizes().size / 2);
    if other.0 < pid.0 {
        y - half
    } else if pid.0 < other.0 {
        y + half
    } else {
        y
    }
}

/// Appends where an arrow begins, with its class.
fn put_opening(out: &mut Vec<u8>, frame: Frame, arrow: &Arrow) -> Result<(), AllocError>
    ensures { Opens out.old out.new (codes "g") result }
{
    let starts = frame.steps.has(arrow.passage.sent.told.by);
    let ends = frame.steps.has(arrow.passage.received.told.by);
    put_pieces(
        out,
        &[
            Piece::Word(b"<g class=\"arrow h"),
            Piece::Number(hue(arrow.port)),
            Piece::If(!starts, b" comes"),
            Piece::If(!ends, b" leaves"),
            Piece::Word(b"\">"),
        ],
    )
}

/// Appends what is told where one points at it: both sides of the passage.
fn put_title(out: &mut Vec<u8>, port: Port, sent: &Told, received: &Told) -> Result<(), AllocError>
    ensures { Elements out.old out.new result }
{
    put_pieces(
        out,
        &[
            Piece::Word(b"<title>port "),
            Piece::Number(port.0.into()),
            Piece::Word(b" from\n"),
            Piece::Tells(sent.event),
            Piece::Word(b"asked at step "),
            Piece::Number(number_of(sent.asked)),
            Piece::Word(b" by step "),
            Piece::Number(number_of(sent.by)),
            Piece::Word(b"\nto\n"),
            Piece::Tells(received.event),
            Piece::Word(b"asked at step "),
            Piece::Number(number_of(received.asked)),
            Piece::Word(b" by step "),
            Piece::Number(number_of(received.by)),
            Piece::Word(b"\n</title>"),
        ],
    )
}

/// Appends the path of an arrow from one process to another.
fn put_line(out: &mut Vec<u8>, frame: Frame, sent: &Told, received: &Told) -> Result<(), AllocError>
    ensures { Elements out.old out.new result }
{
    put_filled(
        out,
        &[b"<path d=\"M", b" ", b"L", b" ", b"\"/>"],
        &[
            frame.x(sent.by),
            side(frame, sent.event.pid, received.event.pid),
            frame.x(received.by),
            side(frame, received.event.pid, sent.event.pid),
        ],
    )
}

/// How far above the boxes of a lane an arc is drawn.
fn lift(frame: Frame) -> u64 {
    let sizes = frame.scale.sizes();
    sizes.lane.saturating_sub(sizes.size).saturating_sub(4)
}

/// Appends the path of an arc over the lane of a process that sends to itself.
fn put_arc(out: &mut Vec<u8>, frame: Frame, sent: &Told, received: &Told) -> Result<(), AllocError>
    ensures { Elements out.old out.new result }
{
    let from = frame.x(sent.by);
    let to = frame.x(received.by);
    let edge = frame.y(sent.event.pid.0) - frame.scale.sizes().size / 2;
    let peak = edge.saturating_sub(lift(frame));
    put_filled(
        out,
        &[b"<path d=\"M", b" ", b"Q", b" ", b" ", b" ", b"\"/>"],
        &[from, edge, (from + to) / 2, peak, to, edge],
    )
}

/// Appends the arrow itself.
fn put_body(out: &mut Vec<u8>, frame: Frame, sent: &Told, received: &Told) -> Result<(), AllocError>
    ensures { Elements out.old out.new result }
{
    if sent.event.pid.0 == received.event.pid.0 {
        put_arc(out, frame, sent, received)
    } else {
        put_line(out, frame, sent, received)
    }
}

/// Appends an arrow.
fn put_arrow(out: &mut Vec<u8>, frame: Frame, arrow: &Arrow) -> Result<(), AllocError>
    ensures { Elements out.old out.new result }
{
    let (sent, received) = (&arrow.passage.sent.told, &arrow.passage.received.told);
    put_opening(out, frame, arrow)?;
    put_title(out, arrow.port, sent, received)?;
    put_body(out, frame, sent, received)?;
    put(out, b"</g>\n")
}

/// Arrows, where the band has an end of them.
impl Pen<Arrow> for Frame {
    fn put(&self, out: &mut Vec<u8>, arrow: &Arrow) -> Result<(), AllocError> {
        if has_end(self.steps, arrow) {
            put_arrow(out, *self, arrow)
        } else {
            Ok(())
        }
    }
}
