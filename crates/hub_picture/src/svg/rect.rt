//! Rectangles.

ghost use Rattle.hub_picture.specs.Reading.{Elements};

use crate::piece::put_filled;
use std::alloc::AllocError;

/// Where a rectangle stands, and how large it is.
#[derive(Clone, Copy)]
pub(crate) struct Rect {
    /// Its left edge.
    pub x: u64,
    /// Its upper edge.
    pub y: u64,
    /// How wide it is.
    pub width: u64,
    /// How high it is.
    pub height: u64,
}

/// Appends a rectangle.
pub(crate) fn put_rect(out: &mut Vec<u8>, rect: Rect) -> Result<(), AllocError>
    ensures { Elements out.old out.new result }
{
    put_filled(
        out,
        &[
            b"<rect x=\"",
            b"\" y=\"",
            b"\" width=\"",
            b"\" height=\"",
            b"\"/>",
        ],
        &[rect.x, rect.y, rect.width, rect.height],
    )
}
