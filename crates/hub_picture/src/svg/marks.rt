//! The marks of ports: a form for each colour.

ghost use Rattle.hub_picture.specs.Reading.{Elements};

use super::rect::Rect;
use crate::label::Label;
use crate::piece::{hue, put, put_filled};
use std::alloc::AllocError;

/// The forms, as ends of arrows.
const MARKS: &[u8] =
    b"<marker id=\"m0\" class=\"h0\" viewBox=\"0 0 8 8\" refX=\"4\" refY=\"4\" markerWidth=\"5\" markerHeight=\"5\">\
<path id=\"k0\" d=\"M0 4a4 4 0 1 0 8 0a4 4 0 1 0-8 0z\"/></marker>\n\
<marker id=\"m1\" class=\"h1\" viewBox=\"0 0 8 8\" refX=\"4\" refY=\"4\" markerWidth=\"5\" markerHeight=\"5\">\
<path id=\"k1\" d=\"M0 0H8V8H0z\"/></marker>\n\
<marker id=\"m2\" class=\"h2\" viewBox=\"0 0 8 8\" refX=\"4\" refY=\"4\" markerWidth=\"5\" markerHeight=\"5\">\
<path id=\"k2\" d=\"M2 0H6V8H2z\"/></marker>\n\
<marker id=\"m3\" class=\"h3\" viewBox=\"0 0 8 8\" refX=\"4\" refY=\"4\" markerWidth=\"5\" markerHeight=\"5\">\
<path id=\"k3\" d=\"M4 0L8 4L4 8L0 4z\"/></marker>\n\
<marker id=\"m4\" class=\"h4\" viewBox=\"0 0 8 8\" refX=\"4\" refY=\"4\" markerWidth=\"5\" markerHeight=\"5\">\
<path id=\"k4\" d=\"M0 2H8V6H0z\"/></marker>\n\
<marker id=\"m5\" class=\"h5\" viewBox=\"0 0 8 8\" refX=\"4\" refY=\"4\" markerWidth=\"5\" markerHeight=\"5\">\
<path id=\"k5\" d=\"M3 0H5V3H8V5H5V8H3V5H0V3H3z\"/></marker>\n\
<marker id=\"m6\" class=\"h6\" viewBox=\"0 0 8 8\" refX=\"4\" refY=\"4\" markerWidth=\"5\" markerHeight=\"5\">\
<path id=\"k6\" d=\"M0 2L2 0L4 2L6 0L8 2L6 4L8 6L6 8L4 6L2 8L0 6L2 4z\"/></marker>\n\
<marker id=\"m7\" class=\"h7\" viewBox=\"0 0 8 8\" refX=\"4\" refY=\"4\" markerWidth=\"5\" markerHeight=\"5\">\
<path id=\"k7\" d=\"M0 0H8L0 8H8z\"/></marker>\n";

/// Appends the forms.
pub(crate) fn put_marks(out: &mut Vec<u8>) -> Result<(), AllocError>
    ensures { Elements out.old out.new result }
{
    put(out, MARKS)
}

/// The number of the colour and the form of a label's port.
pub(crate) fn hue_in(label: Label) -> Option<u64> {
    match label {
        Label::Make(port) | Label::Send(port) | Label::Receive(port) => Some(hue(port)),
        Label::Close(port) | Label::Reopen(port) => Some(hue(port)),
        _ => None,
    }
}

/// Appends the mark of this number on the corner of a box.
fn put_hue(out: &mut Vec<u8>, hue: u64, rect: Rect) -> Result<(), AllocError>
    ensures { Elements out.old out.new result }
{
    let x = rect.x.saturating_sub(3);
    let y = rect.y.saturating_sub(3);
    put_filled(
        out,
        &[
            b"<use class=\"mark\" href=\"#k",
            b"\" x=\"",
            b"\" y=\"",
            b"\"/>",
        ],
        &[hue, x, y],
    )
}

/// Appends a mark on the corner of a box, if it has one.
pub(crate) fn put_mark(out: &mut Vec<u8>, hue: Option<u64>, rect: Rect) -> Result<(), AllocError>
    ensures { Elements out.old out.new result }
{
    match hue {
        Some(hue) => put_hue(out, hue, rect),
        None => Ok(()),
    }
}
