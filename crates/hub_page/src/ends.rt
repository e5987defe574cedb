//! What the line of a step tells of an event.

ghost use Rattle.std.specs.Prelude.{◌≡◌, ◌<◌, ◌++◌, length, OnOk};
ghost use Rattle.std.specs.List.{flat_map};
ghost use Rattle.hub_story.specs.Moves.{move_of};
ghost use Rattle.hub_page.specs.Ends.{end_words, from_words, level_words, moved_words, outcome_letter, sender_words, told_words};
ghost use Rattle.hub_page.specs.Line.{IsLine, entries_of, told_of};

use crate::line::Line;
use crate::number::put_number;
use hub_base::{Outcome, Port, What};
use hub_parts::Side;
use hub_story::{Move, Told, move_of};
use std::alloc::AllocError;

/// The letter of an outcome.
fn outcome_letter(outcome: Outcome) -> &'static [u8]
    ensures { result.now ≡ outcome_letter outcome }
{
    match outcome {
        Outcome::Sent => b"s",
        Outcome::Got(_) => b"g",
        Outcome::Drained => b"d",
        Outcome::Closed => b"c",
    }
}

/// Appends how a step ended.
fn put_end(out: &mut Vec<u8>, what: What) -> Result<(), AllocError>
    ensures { OnOk result (out.new.items ≡ out.old.items ++ end_words what) }
{
    match what {
        What::Made(port) => put_number(out, b"m", port.0.into()),
        What::Fired { case, outcome } => put_number(out, outcome_letter(outcome), case.into()),
        What::Default => out.extend_from_slice(b"D"),
        What::Done => out.extend_from_slice(b"k"),
        What::Parked => Ok(()),
        What::Stalled => out.extend_from_slice(b"S"),
        What::Fault(fault) => put_number(out, b"f", fault.number().into()),
        What::Cancelled => out.extend_from_slice(b"x"),
    }
}

/// Appends from which step a value came that was received by the step at this place.
fn put_from(out: &mut Vec<u8>, place: u32, sender: Option<u32>) -> Result<(), AllocError>
    ensures { OnOk result (out.new.items ≡ out.old.items ++ from_words place sender) }
{
    match sender {
        Some(sender) => put_number(out, b"@", place.saturating_sub(sender).into()),
        None => Ok(()),
    }
}

/// Appends it, where the value of the call that was asked at the other place moved on this side.
fn put_sender(out: &mut Vec<u8>, line: &Line<'_>, asked: u32, side: Side) -> Result<(), AllocError>
    requires line { IsLine line.now }
    requires within { asked < length (entries_of line.now) }
    ensures { OnOk result (out.new.items ≡ out.old.items
        ++ sender_words (entries_of line.now) (told_of line.now) line.now.place asked side) }
{
    let partner = line.known.explained.partner(asked as usize);
    match side {
        Side::Send => Ok(()),
        Side::Recv => put_from(out, line.place, partner),
    }
}

/// Appends how much the port holds after the step.
fn put_level(out: &mut Vec<u8>, line: &Line<'_>, port: Port) -> Result<(), AllocError>
    requires { IsLine line.now }
    ensures { OnOk result (
        out.new.items ≡ out.old.items ++ level_words (entries_of line.now) (told_of line.now) line.now.place port) }
{
    put_number(out, b";", port.0.into())?;
    put_number(out, b":", line.past.levels.level(port))
}

/// Appends what is told of the value that moved, if one did.
fn put_moved(out: &mut Vec<u8>, line: &Line<'_>, told: &Told) -> Result<(), AllocError>
    requires { IsLine line.now }
    ensures { OnOk result (out.new.items ≡ out.old.items ++ moved_words (entries_of line.now) (told_of line.now) line.now.place told.now.asked
        (move_of (entries_of line.now) told.now)) }
{
    let Some(Move { port, side, .. }) = move_of(line.known.entries(), told) else {
        return Ok(());
    };
    put_sender(out, line, told.asked, side)?;
    put_level(out, line, port)
}

/// Appends what is told of an event that came by the step.
fn put_told(out: &mut Vec<u8>, line: &Line<'_>, told: &Told) -> Result<(), AllocError>
    requires { IsLine line.now }
    ensures { OnOk result (out.new.items ≡ out.old.items
        ++ told_words (entries_of line.now) (told_of line.now) line.now.place told.now) }
{
    if told.event.what.is_parked() {
        return Ok(());
    }
    put_number(out, b";", line.place.saturating_sub(told.asked).into())?;
    put_end(out, told.event.what)?;
    put_moved(out, line, told)
}

/// Appends what is told by the step.
pub(crate) fn put_all_told(out: &mut Vec<u8>, line: &Line<'_>) -> Result<(), AllocError>
    requires { IsLine line.now }
    ensures { OnOk result (out.new.items ≡ out.old.items
        ++ flat_map (told_words (entries_of line.now) (told_of line.now) line.now.place) line.now.came.now) }
{
    for told in line.came {
        put_told(out, line, told)?;
    }
    Ok(())
}
