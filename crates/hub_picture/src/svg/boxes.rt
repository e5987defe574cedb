//! The boxes of entries.

ghost use Rattle.hub_picture.specs.Reading.{Elements};

use super::marks::{hue_in, put_mark};
use super::rect::{Rect, put_rect};
use super::select::put_box_offers;
use crate::Asked;
use crate::frame::Frame;
use crate::label::{label_of, shown_value};
use crate::piece::{Piece, put_pieces};
use std::alloc::AllocError;

/// Where the box stands.
fn rect_of(frame: Frame, asked: &Asked) -> Rect {
    let sizes = frame.scale.sizes();
    Rect {
        x: frame.x(asked.place) + 3 - sizes.half,
        y: frame.y(asked.entry.pid.0) - sizes.size / 2,
        width: 2 * sizes.half - 6,
        height: sizes.size,
    }
}

/// Appends what stands in it.
fn put_label(out: &mut Vec<u8>, frame: Frame, asked: &Asked) -> Result<(), AllocError>
    ensures { Elements out.old out.new result }
{
    put_pieces(
        out,
        &[
            Piece::Word(b"<text x=\""),
            Piece::Number(frame.x(asked.place)),
            Piece::Word(b"\" y=\""),
            Piece::Number(frame.y(asked.entry.pid.0) + 4),
            Piece::Word(b"\">"),
            Piece::Name(label_of(asked)),
            Piece::Moves(shown_value(frame.scale, asked)),
            Piece::Word(b"</text>"),
        ],
    )
}

/// Appends the box of an entry, the mark of its port, and its texts.
pub(crate) fn put_box(out: &mut Vec<u8>, frame: Frame, asked: &Asked) -> Result<(), AllocError>
    ensures { Elements out.old out.new result }
{
    let rect = rect_of(frame, asked);
    put_rect(out, rect)?;
    put_mark(out, hue_in(label_of(asked)), rect)?;
    put_label(out, frame, asked)?;
    put_box_offers(out, frame, asked)
}
