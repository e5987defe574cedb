//! What a select offered, in its box.

ghost use Rattle.std.specs.Prelude.{codes};
ghost use Rattle.hub_picture.specs.Reading.{Elements, Opens};

use crate::Asked;
use crate::frame::{Frame, Scale};
use crate::label::{case_label, last_told};
use crate::piece::{Piece, put, put_filled, put_pieces};
use hub_base::{Case, Step, What};
use std::alloc::AllocError;

/// Whether the case at this place fired.
fn is_fired(what: What, place: usize) -> bool {
    match what {
        What::Fired { case, .. } => usize::from(case) == place,
        _ => false,
    }
}

/// Appends a case, so that the one that fired stands out.
fn put_offer(out: &mut Vec<u8>, fired: bool, case: Case) -> Result<(), AllocError>
    ensures { Elements out.old out.new result }
{
    let label = Piece::Name(case_label(Some(case)));
    if fired {
        put_pieces(
            out,
            &[
                Piece::Word(b"<tspan class=\"fired\">"),
                label,
                Piece::Word(b"</tspan> "),
            ],
        )
    } else {
        put_pieces(out, &[label, Piece::Word(b" ")])
    }
}

/// Appends these cases.
fn put_offers(out: &mut Vec<u8>, what: What, cases: &[Case]) -> Result<(), AllocError>
    ensures { Elements out.old out.new result }
{
    for (place, case) in cases.iter().enumerate() {
        match put_offer(out, is_fired(what, place), *case) {
            Ok(()) => {}
            Err(AllocError) => return Err(AllocError),
        }
    }
    Ok(())
}

/// Appends them, or how many there are.
fn put_some(out: &mut Vec<u8>, what: What, cases: &[Case]) -> Result<(), AllocError>
    ensures { Elements out.old out.new result }
{
    if cases.len() <= 4 {
        put_offers(out, what, cases)
    } else {
        put_filled(out, &[b"", b" cases"], &[cases.len() as u64])
    }
}

/// Appends where they begin.
fn put_opening(out: &mut Vec<u8>, frame: Frame, asked: &Asked) -> Result<(), AllocError>
    ensures { Opens out.old out.new (codes "text") result }
{
    put_filled(
        out,
        &[b"<text class=\"cases\" x=\"", b"\" y=\"", b"\">"],
        &[frame.x(asked.place), frame.y(asked.entry.pid.0) + 15],
    )
}

/// Appends the cases of a select.
fn put_select(
    out: &mut Vec<u8>,
    frame: Frame,
    asked: &Asked,
    cases: &[Case],
) -> Result<(), AllocError>
    ensures { Elements out.old out.new result }
{
    put_opening(out, frame, asked)?;
    put_some(out, last_told(asked.ended), cases)?;
    put(out, b"</text>")
}

/// The cases of a select.
fn offers_of(step: &Step) -> &[Case] {
    match step {
        Step::Call { cases, .. } if cases.len() >= 2 => cases.as_slice(),
        _ => &[],
    }
}

/// Appends what a select offered, where there is room for it.
pub(crate) fn put_box_offers(
    out: &mut Vec<u8>,
    frame: Frame,
    asked: &Asked,
) -> Result<(), AllocError>
    ensures { Elements out.old out.new result }
{
    let cases = offers_of(&asked.entry.step);
    match frame.scale {
        Scale::Wide if !cases.is_empty() => put_select(out, frame, asked, cases),
        _ => Ok(()),
    }
}
