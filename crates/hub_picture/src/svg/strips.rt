//! The strips of ports, and their levels.

ghost use Rattle.std.specs.Prelude.{codes};
ghost use Rattle.hub_picture.specs.Reading.{Elements, Opens};

use super::rect::{Rect, put_rect};
use crate::frame::{FULL, Frame, LEFT, number_of};
use crate::levels::shows_level;
use crate::pen::Pen;
use crate::piece::{Piece, hue, put, put_filled, put_pieces};
use crate::{Held, Strip};
use hub_story::Level;
use std::alloc::AllocError;

/// How high so many values stand, of those that there is room for.
fn height(room: u32, count: u64) -> u64 {
    let most = u64::from(room).max(1);
    (count.min(room.into()) * FULL + most - 1) / most
}

/// Appends where a strip begins, and what is told where one points at it.
fn put_strip_opening(out: &mut Vec<u8>, strip: &Strip) -> Result<(), AllocError>
    ensures { Opens out.old out.new (codes "g") result }
{
    put_filled(
        out,
        &[
            b"<g class=\"strip\"><title>port ",
            b" has room for ",
            b"\n</title>",
        ],
        &[strip.port.0.into(), strip.room.into()],
    )
}

/// Appends its floor, where it is full, and its name.
fn put_strip_body(out: &mut Vec<u8>, frame: Frame, strip: &Strip) -> Result<(), AllocError>
    ensures { Elements out.old out.new result }
{
    let (end, floor) = (frame.x(frame.steps.end), frame.floor(strip.row));
    let full = height(strip.room, strip.room.into());
    put_filled(
        out,
        &[
            b"<path d=\"M",
            b" ",
            b"H",
            b"M",
            b" ",
            b"H",
            b"\"/><text class=\"name\" x=\"",
            b"\" y=\"",
            b"\">port ",
            b"</text><use class=\"mark h",
            b"\" href=\"#k",
            b"\" x=\"4\" y=\"",
            b"\"/>",
        ],
        &[
            LEFT,
            floor,
            end,
            LEFT,
            floor.saturating_sub(full),
            end,
            LEFT - 8,
            floor,
            strip.port.0.into(),
            hue(strip.port),
            hue(strip.port),
            floor - 8,
        ],
    )
}

/// Strips of ports, in the band.
impl Pen<Strip> for Frame {
    fn put(&self, out: &mut Vec<u8>, strip: &Strip) -> Result<(), AllocError> {
        put_strip_opening(out, strip)?;
        put_strip_body(out, *self, strip)?;
        put(out, b"</g>\n")
    }
}

/// How many values a port of this level holds.
fn count_of(level: Level) -> u64 {
    level.sent.saturating_sub(level.received) as u64
}

/// Appends where a level begins, and what is told where one points at it.
fn put_level_opening(out: &mut Vec<u8>, held: &Held) -> Result<(), AllocError>
    ensures { Opens out.old out.new (codes "g") result }
{
    put_pieces(
        out,
        &[
            Piece::Word(b"<g class=\"level h"),
            Piece::Number(hue(held.strip.port)),
            Piece::Word(b"\"><title>port "),
            Piece::Number(held.strip.port.0.into()),
            Piece::Word(b" holds "),
            Piece::Number(count_of(held.level)),
            Piece::Word(b" of "),
            Piece::Number(held.strip.room.into()),
            Piece::Word(b" from step "),
            Piece::Number(number_of(held.from)),
            Piece::Until(held.until),
            Piece::Word(b"\n</title>"),
        ],
    )
}

/// Where the level stands.
fn rect_of(frame: Frame, held: &Held) -> Rect {
    let x = frame.x(held.from);
    let end = frame.x(frame.until(held.until));
    let high = height(held.strip.room, count_of(held.level));
    Rect {
        x,
        y: frame.floor(held.strip.row).saturating_sub(high),
        width: end.saturating_sub(x),
        height: high,
    }
}

/// Appends how many values stay behind a level.
fn put_stay(out: &mut Vec<u8>, frame: Frame, held: &Held) -> Result<(), AllocError>
    ensures { Elements out.old out.new result }
{
    put_filled(
        out,
        &[
            b"<text class=\"stay\" x=\"",
            b"\" y=\"",
            b"\">",
            b" stay</text>",
        ],
        &[
            frame.x(frame.steps.end) + 4,
            frame.floor(held.strip.row),
            count_of(held.level),
        ],
    )
}

/// The same where it stays so.
fn put_stay_in(out: &mut Vec<u8>, frame: Frame, held: &Held) -> Result<(), AllocError>
    ensures { Elements out.old out.new result }
{
    match held.until {
        Some(_until) => Ok(()),
        None => put_stay(out, frame, held),
    }
}

/// Appends a level, and what stays behind it.
fn put_level(out: &mut Vec<u8>, frame: Frame, held: &Held) -> Result<(), AllocError>
    ensures { Elements out.old out.new result }
{
    put_level_opening(out, held)?;
    put_rect(out, rect_of(frame, held))?;
    put_stay_in(out, frame, held)?;
    put(out, b"</g>\n")
}

/// Levels, where the band shows them.
impl Pen<Held> for Frame {
    fn put(&self, out: &mut Vec<u8>, held: &Held) -> Result<(), AllocError> {
        if shows_level(self.steps, held) {
            put_level(out, *self, held)
        } else {
            Ok(())
        }
    }
}
