//! How to read what occurs in a picture.

ghost use Rattle.std.specs.Prelude.{◌≤◌, codes, length};
ghost use Rattle.hub_picture.specs.Reading.{AreElements, Elements, Opens};

use crate::frame::ROW;
use crate::label::{Label, class_told, label_of};
use crate::piece::{put, put_filled};
use crate::{Asked, Drawing};
use hub_base::{Outcome, What};
use std::alloc::AllocError;

/// What is told of.
#[derive(Clone, Copy)]
pub(crate) enum Mark {
    /// It sends.
    Sends,
    /// It receives.
    Receives,
    /// It made a port.
    Makes,
    /// It closes a port.
    Closes,
    /// It opens a port again.
    Reopens,
    /// It is a select of which no case fired.
    Selects,
    /// It took its default.
    Defaults,
    /// It cancels a call.
    Cancels,
    /// It starts a process again.
    Starts,
    /// It was refused.
    Refused,
    /// It still waits.
    Open,
    /// It found its port closed and drained.
    Drained,
    /// It was cancelled.
    Cancelled,
    /// It was stalled, or sent on a closed port.
    Trouble,
    /// A bar.
    Bars,
    /// An arrow.
    Arrows,
    /// A field.
    Stalls,
    /// A level.
    Levels,
}

/// Whether a label has the mark.
fn of_label(mark: Mark, label: Label) -> bool {
    match mark {
        Mark::Sends => matches!(label, Label::Send(_)),
        Mark::Receives => matches!(label, Label::Receive(_)),
        Mark::Makes => matches!(label, Label::Make(_)),
        Mark::Closes => matches!(label, Label::Close(_)),
        Mark::Reopens => matches!(label, Label::Reopen(_)),
        Mark::Selects => matches!(label, Label::Select),
        Mark::Defaults => matches!(label, Label::Default),
        Mark::Cancels => matches!(label, Label::Cancel(_)),
        Mark::Starts => matches!(label, Label::Start(_)),
        Mark::Refused => matches!(label, Label::Refused(_)),
        _ => false,
    }
}

/// Whether an end has it.
fn of_end(mark: Mark, what: What) -> bool {
    match what {
        What::Parked => matches!(mark, Mark::Open),
        What::Cancelled => matches!(mark, Mark::Cancelled),
        What::Stalled => matches!(mark, Mark::Trouble),
        What::Fired { outcome, .. } => match outcome {
            Outcome::Drained => matches!(mark, Mark::Drained),
            Outcome::Closed => matches!(mark, Mark::Trouble),
            Outcome::Sent | Outcome::Got(_) => false,
        },
        _ => false,
    }
}

/// Whether an entry has it.
fn has_mark(mark: Mark, asked: &Asked) -> bool {
    of_label(mark, label_of(asked)) || of_end(mark, class_told(asked))
}

/// Whether one of these boxes has the mark.
fn has_any(mark: Mark, boxes: &[Asked]) -> bool {
    for asked in boxes {
        if has_mark(mark, asked) {
            return true;
        }
    }
    false
}

/// Whether the drawing has it.
fn occurs(drawing: &Drawing, mark: Mark) -> bool {
    match mark {
        Mark::Bars => !drawing.bars.as_slice().is_empty(),
        Mark::Arrows => !drawing.arrows.as_slice().is_empty(),
        Mark::Stalls => !drawing.stalls.as_slice().is_empty(),
        Mark::Levels => !drawing.levels.as_slice().is_empty(),
        _ => has_any(mark, drawing.boxes.as_slice()),
    }
}

/// A sign of it, as it looks in the picture.
fn sign(mark: Mark) -> &'static [u8]
    ensures { AreElements result.now }
{
    match mark {
        Mark::Sends =>
            b"<g class=\"box send h1\"><rect x=\"0\" y=\"-7\" width=\"28\" height=\"14\"/><text x=\"14\" y=\"4\">s1</text></g>",
        Mark::Receives =>
            b"<g class=\"box receive h1\"><rect x=\"0\" y=\"-7\" width=\"28\" height=\"14\"/><text x=\"14\" y=\"4\">r1</text></g>",
        Mark::Makes =>
            b"<g class=\"box port h1\"><rect x=\"0\" y=\"-7\" width=\"28\" height=\"14\"/><text x=\"14\" y=\"4\">m1</text></g>",
        Mark::Closes =>
            b"<g class=\"box port h1\"><rect x=\"0\" y=\"-7\" width=\"28\" height=\"14\"/><text x=\"14\" y=\"4\">c1</text></g>",
        Mark::Reopens =>
            b"<g class=\"box port h1\"><rect x=\"0\" y=\"-7\" width=\"28\" height=\"14\"/><text x=\"14\" y=\"4\">o1</text></g>",
        Mark::Selects =>
            b"<g class=\"box plain\"><rect x=\"0\" y=\"-7\" width=\"28\" height=\"14\"/><text x=\"14\" y=\"4\">?</text></g>",
        Mark::Defaults =>
            b"<g class=\"box plain\"><rect x=\"0\" y=\"-7\" width=\"28\" height=\"14\"/><text x=\"14\" y=\"4\">def</text></g>",
        Mark::Cancels =>
            b"<g class=\"box plain\"><rect x=\"0\" y=\"-7\" width=\"28\" height=\"14\"/><text x=\"14\" y=\"4\">x2</text></g>",
        Mark::Starts =>
            b"<g class=\"box plain\"><rect x=\"0\" y=\"-7\" width=\"28\" height=\"14\"/><text x=\"14\" y=\"4\">g2</text></g>",
        Mark::Refused =>
            b"<g class=\"box refused\"><rect x=\"0\" y=\"-7\" width=\"28\" height=\"14\"/><text x=\"14\" y=\"4\">f3</text></g>",
        Mark::Open =>
            b"<g class=\"box receive h1 open\"><rect x=\"0\" y=\"-7\" width=\"28\" height=\"14\"/><text x=\"14\" y=\"4\">r1</text></g>",
        Mark::Drained =>
            b"<g class=\"box receive h1 drained\"><rect x=\"0\" y=\"-7\" width=\"28\" height=\"14\"/><text x=\"14\" y=\"4\">r1</text></g>",
        Mark::Cancelled =>
            b"<g class=\"box receive h1 cancelled\"><rect x=\"0\" y=\"-7\" width=\"28\" height=\"14\"/><text x=\"14\" y=\"4\">r1</text></g>",
        Mark::Trouble =>
            b"<g class=\"box receive h1 trouble\"><rect x=\"0\" y=\"-7\" width=\"28\" height=\"14\"/><text x=\"14\" y=\"4\">r1</text></g>",
        Mark::Bars =>
            b"<g class=\"bar receive h1\"><rect x=\"0\" y=\"-4\" width=\"24\" height=\"8\"/><circle cx=\"24\" cy=\"0\" r=\"4\"/></g>",
        Mark::Arrows => b"<g class=\"arrow h1\"><path d=\"M4 -5L26 5\"/></g>",
        Mark::Stalls =>
            b"<g class=\"stall\"><rect x=\"0\" y=\"-7\" width=\"28\" height=\"14\"/></g>",
        Mark::Levels =>
            b"<g class=\"strip\"><path d=\"M0 6H28M0 -6H28\"/></g><g class=\"level h1\"><rect x=\"4\" y=\"-1\" width=\"20\" height=\"7\"/></g>",
    }
}

/// A word for it.
fn word(mark: Mark) -> &'static [u8]
    ensures { AreElements result.now }
{
    match mark {
        Mark::Sends => b"sends",
        Mark::Receives => b"receives",
        Mark::Makes => b"makes a port",
        Mark::Closes => b"closes a port",
        Mark::Reopens => b"reopens a port",
        Mark::Selects => b"no case fired",
        Mark::Defaults => b"default taken",
        Mark::Cancels => b"cancels a call",
        Mark::Starts => b"starts a process",
        Mark::Refused => b"refused: fault 3",
        Mark::Open => b"still waits",
        Mark::Drained => b"closed and empty",
        Mark::Cancelled => b"was cancelled",
        Mark::Trouble => b"stalls or fails",
        Mark::Bars => b"waits, then ends",
        Mark::Arrows => b"value on its way",
        Mark::Stalls => b"deadlock",
        Mark::Levels => b"values in a port",
    }
}

/// Appends elements, and plain text between them.
fn put_elements(out: &mut Vec<u8>, text: &[u8]) -> Result<(), AllocError>
    requires { AreElements text.now }
    ensures { Elements out.old out.new result }
{
    put(out, text)
}

/// Appends where the sign in this place begins. Six stand in a row.
fn put_opening(out: &mut Vec<u8>, place: u64) -> Result<(), AllocError>
    requires few { place ≤ 100 }
    ensures { Opens out.old out.new (codes "g") result }
{
    put_filled(
        out,
        &[b"<g class=\"sign\" transform=\"translate(", b" ", b")\">"],
        &[14 + 126 * (place % 6), 44 + ROW * (place / 6)],
    )
}

/// Appends the sign of a mark in this place, and its word.
fn put_sign(out: &mut Vec<u8>, place: u64, mark: Mark) -> Result<(), AllocError>
    requires few { place ≤ 100 }
    ensures { Elements out.old out.new result }
{
    put_opening(out, place)?;
    put_elements(out, sign(mark))?;
    put(out, b"<text class=\"note\" x=\"34\" y=\"4\">")?;
    put_elements(out, word(mark))?;
    put(out, b"</text></g>\n")
}

/// Appends those of these marks that occur.
fn put_signs(out: &mut Vec<u8>, drawing: &Drawing, marks: &[Mark]) -> Result<(), AllocError>
    requires few { length marks.now ≤ 100 }
    ensures { Elements out.old out.new result }
{
    let mut place = 0;
    for mark in marks {
        if occurs(drawing, *mark) {
            match put_sign(out, place, *mark) {
                Ok(()) => {}
                Err(AllocError) => return Err(AllocError),
            }
            place += 1;
        }
    }
    Ok(())
}

/// Appends a sign and a word for each mark that occurs.
pub(crate) fn put_legend(out: &mut Vec<u8>, drawing: &Drawing) -> Result<(), AllocError>
    ensures { Elements out.old out.new result }
{
    put_signs(
        out,
        drawing,
        &[
            Mark::Sends,
            Mark::Receives,
            Mark::Makes,
            Mark::Closes,
            Mark::Reopens,
            Mark::Selects,
            Mark::Defaults,
            Mark::Cancels,
            Mark::Starts,
            Mark::Refused,
            Mark::Open,
            Mark::Drained,
            Mark::Cancelled,
            Mark::Trouble,
            Mark::Bars,
            Mark::Arrows,
            Mark::Stalls,
            Mark::Levels,
        ],
    )
}
