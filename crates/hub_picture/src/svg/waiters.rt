//! The rows of those who wait in vain, and of those who are outside the hub.

ghost use Rattle.std.specs.Prelude.{codes};
ghost use Rattle.hub_picture.specs.Reading.{Elements, Opens};

use super::whom::put_whom_words;
use crate::frame::number_of;
use crate::pen::Pen;
use crate::piece::{Piece, put, put_filled, put_pieces};
use crate::{Drawing, Waiter};
use hub_base::Case;
use hub_story::{Outsider, Told};
use std::alloc::AllocError;

/// Appends what is told of a waiter.
fn put_words(out: &mut Vec<u8>, waiter: &Waiter) -> Result<(), AllocError>
    ensures { Elements out.old out.new result }
{
    let gone = waiter.gone && matches!(waiter.case, Case::Send(..));
    put_pieces(
        out,
        &[
            Piece::Word(b"P"),
            Piece::Number(waiter.told.event.pid.0.into()),
            Piece::Word(b" has waited since step "),
            Piece::Number(number_of(waiter.told.asked)),
            Piece::Aim(waiter.case),
            Piece::Word(b"; last sent there by "),
            Piece::Mover(waiter.sender),
            Piece::Word(b", last received by "),
            Piece::Mover(waiter.receiver),
            Piece::If(gone, b"; all who received there have left"),
            Piece::Word(b". "),
        ],
    )
}

/// Appends, where anyone was stalled, what that is.
pub(crate) fn put_deadlock(out: &mut Vec<u8>, stalls: &[Told]) -> Result<(), AllocError>
    ensures { Elements out.old out.new result }
{
    match stalls {
        [] => Ok(()),
        _ => put(
            out,
            b"<tspan class=\"dead\" x=\"12\" dy=\"18\">deadlock: everyone who is left waits</tspan>\n",
        ),
    }
}

/// The rows of those who wait, of this drawing.
#[derive(Clone, Copy)]
pub(crate) struct Rows<'a>(pub &'a Drawing);

impl Pen<Waiter> for Rows<'_> {
    fn put(&self, out: &mut Vec<u8>, waiter: &Waiter) -> Result<(), AllocError> {
        put(out, b"<tspan class=\"waits\" x=\"12\" dy=\"18\">")?;
        put_words(out, waiter)?;
        put_whom_words(out, waiter.whom)?;
        put(out, b"</tspan>\n")
    }
}

/// Appends who is outside, where a row begins.
fn put_outsider(out: &mut Vec<u8>, outsider: &Outsider) -> Result<(), AllocError>
    ensures { Opens out.old out.new (codes "tspan") result }
{
    put_filled(
        out,
        &[
            b"<tspan class=\"outside\" x=\"12\" dy=\"18\">P",
            b" is outside the hub",
        ],
        &[outsider.pid.0.into()],
    )
}

/// Appends a last step.
fn put_last(out: &mut Vec<u8>, last: Option<u32>) -> Result<(), AllocError>
    ensures { Elements out.old out.new result }
{
    match last {
        Some(place) => put_filled(out, &[b", last at step ", b"."], &[number_of(place)]),
        None => put(out, b", never called."),
    }
}

/// The rows of those who are outside.
#[derive(Clone, Copy)]
pub(crate) struct OutsideRows;

impl Pen<Outsider> for OutsideRows {
    fn put(&self, out: &mut Vec<u8>, outsider: &Outsider) -> Result<(), AllocError> {
        put_outsider(out, outsider)?;
        put_last(out, outsider.last)?;
        put(out, b"</tspan>\n")
    }
}
