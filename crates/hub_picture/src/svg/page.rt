//! The page around the bands: its size, its head and its foot.

ghost use Rattle.std.specs.Prelude.{◌≤◌, codes};
ghost use Rattle.hub_picture.specs.Reading.{Elements, Reads, in_root, within_root};
ghost use Rattle.hub_picture.specs.Xml.State.{End, Start};

use super::legend::put_legend;
use super::marks::put_marks;
use super::style::put_style;
use super::waiters::{OutsideRows, Rows, put_deadlock};
use crate::Drawing;
use crate::frame::{FOOT, LEFT, MOST_ROWS, ROW, Scale, TOP, height_of, number_of, ports_of};
use crate::pen::put_each;
use crate::piece::{Piece, put, put_filled, put_pieces};
use std::alloc::AllocError;

/// How many steps are shown.
fn shown_of(drawing: &Drawing) -> u32 {
    drawing.window.end.saturating_sub(drawing.window.first)
}

/// How much room they have.
fn scale_for(steps: u32) -> Scale {
    if steps <= 14 {
        Scale::Wide
    } else if steps <= 72 {
        Scale::Middle
    } else {
        Scale::Dense
    }
}

/// How much room the steps of a drawing have.
pub(crate) fn scale_of(drawing: &Drawing) -> Scale {
    scale_for(shown_of(drawing))
}

/// How many bands there are.
pub(crate) fn bands_of(drawing: &Drawing) -> u32 {
    let steps = scale_of(drawing).sizes().steps;
    ((u64::from(shown_of(drawing)) + steps - 1) / steps) as u32
}

/// How wide the picture is.
fn width_of(drawing: &Drawing) -> u64 {
    let sizes = scale_of(drawing).sizes();
    let steps = u64::from(shown_of(drawing)).min(sizes.steps);
    LEFT + (2 * sizes.half * steps).max(660) + 56
}

/// Where the bands end.
fn foot_of(drawing: &Drawing) -> u64
    ensures most { result ≤ 1125899906842624 }
{
    let height = height_of(scale_of(drawing), drawing.procs, ports_of(drawing));
    TOP + u64::from(bands_of(drawing)) * height
}

/// How high the picture is.
fn height_of_page(drawing: &Drawing) -> u64 {
    let rows = (drawing.waiters.len().min(MOST_ROWS) + drawing.outside.len().min(MOST_ROWS)) as u64;
    foot_of(drawing) + FOOT + ROW * rows
}

/// Appends where a picture begins: its size, its title, and where its style begins.
fn put_opening(out: &mut Vec<u8>, drawing: &Drawing) -> Result<(), AllocError>
    ensures { Reads out.old out.new Start (within_root (codes "style")) result }
{
    let scale = scale_of(drawing);
    let (width, height) = (width_of(drawing), height_of_page(drawing));
    put_pieces(
        out,
        &[
            Piece::Word(b"<svg xmlns=\"http://www.w3.org/2000/svg\" class=\""),
            Piece::If(matches!(scale, Scale::Wide), b"wide"),
            Piece::If(matches!(scale, Scale::Middle), b"middle"),
            Piece::If(matches!(scale, Scale::Dense), b"dense"),
            Piece::Word(b"\" width=\""),
            Piece::Number(width),
            Piece::Word(b"\" height=\""),
            Piece::Number(height),
            Piece::Word(b"\" viewBox=\"0 0 "),
            Piece::Number(width),
            Piece::Word(b" "),
            Piece::Number(height),
            Piece::Word(b"\" role=\"img\">\n<title>Steps "),
            Piece::Number(number_of(drawing.window.first)),
            Piece::Word(b" to "),
            Piece::Number(drawing.window.end.into()),
            Piece::Word(b"</title>\n<style>"),
        ],
    )
}

/// Appends the paper, what it shows, and the tip of arrows, behind the style.
fn put_paper(out: &mut Vec<u8>, drawing: &Drawing) -> Result<(), AllocError>
    ensures { Reads out.old out.new (within_root (codes "style")) (within_root (codes "defs")) result }
{
    put_filled(
        out,
        &[
            b"</style>\n<rect class=\"paper\" width=\"",
            b"\" height=\"",
            b"\"/>\n<text class=\"note\" x=\"12\" y=\"20\">Steps ",
            b" to ",
            b" of ",
            b" processes</text>\n<defs>\
<marker id=\"tip\" viewBox=\"0 0 8 8\" refX=\"7\" refY=\"4\" markerWidth=\"5\" markerHeight=\"5\" orient=\"auto\">\
<path class=\"tip\" d=\"M0 0L8 4L0 8z\"/></marker>\n",
        ],
        &[
            width_of(drawing),
            height_of_page(drawing),
            number_of(drawing.window.first),
            drawing.window.end.into(),
            drawing.procs.into(),
        ],
    )
}

/// Appends the head of a picture, and how to read it.
pub(crate) fn put_top(out: &mut Vec<u8>, drawing: &Drawing) -> Result<(), AllocError>
    ensures { Reads out.old out.new Start in_root result }
{
    put_opening(out, drawing)?;
    put_style(out)?;
    put_paper(out, drawing)?;
    put_marks(out)?;
    put(out, b"</defs>\n")?;
    put_legend(out, drawing)
}

/// Appends the rows of those who wait, below what it is that they do, and of those who are outside.
fn put_rows(out: &mut Vec<u8>, drawing: &Drawing) -> Result<(), AllocError>
    ensures { Elements out.old out.new result }
{
    put_deadlock(out, &drawing.stalls)?;
    put_each(out, &Rows(drawing), &drawing.waiters)?;
    put_each(out, &OutsideRows, &drawing.outside)
}

/// Appends where its foot begins.
fn put_foot_opening(out: &mut Vec<u8>, drawing: &Drawing) -> Result<(), AllocError>
    ensures { Reads out.old out.new in_root (within_root (codes "text")) result }
{
    put_filled(
        out,
        &[b"<text class=\"note\" x=\"12\" y=\"", b"\">\n"],
        &[foot_of(drawing)],
    )
}

/// Appends its foot, which tells who waits in vain, and who is outside.
pub(crate) fn put_foot(out: &mut Vec<u8>, drawing: &Drawing) -> Result<(), AllocError>
    ensures { Reads out.old out.new in_root End result }
{
    put_foot_opening(out, drawing)?;
    put_rows(out, drawing)?;
    put(out, b"</text>\n</svg>\n")
}
