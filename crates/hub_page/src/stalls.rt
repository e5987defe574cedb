//! What the line of a step tells of those whom it stalled.

ghost use Rattle.std.specs.Prelude.{◌≡◌, ◌++◌, OnOk};
ghost use Rattle.std.specs.List.{flat_map};
ghost use Rattle.hub_story.specs.Waiting.{stalled_by};
ghost use Rattle.hub_page.specs.Line.{IsLine, entries_of, told_of};
ghost use Rattle.hub_page.specs.Stalls.{back_words, call_of, case_of, case_words, gone_sign, last_words, stall_words, whom_words};

use crate::line::Line;
use crate::number::put_number;
use hub_base::Case;
use hub_core::CaseRoom;
use hub_story::{AtPort, Mover, Told, whom};
use hub_story_text::stalled_of;
use std::alloc::AllocError;

/// Appends how many steps ago the one was asked that moved a value.
fn put_back(
    out: &mut Vec<u8>,
    words: &[u8],
    place: u32,
    mover: Option<Mover>,
) -> Result<(), AllocError>
    ensures { OnOk result (out.new.items ≡ out.old.items ++ words.now ++ back_words place mover) }
{
    match mover {
        Some(mover) => put_number(out, words, place.saturating_sub(mover.asked).into()),
        None => out.extend_from_slice(words),
    }
}

/// Appends a sign, where the case sends, and all who received there have left.
fn put_gone(out: &mut Vec<u8>, case: Case, gone: bool) -> Result<(), AllocError>
    ensures { OnOk result (out.new.items ≡ out.old.items ++ gone_sign case gone) }
{
    match case {
        Case::Send(_port, _value) if gone => out.extend_from_slice(b"!"),
        _ => Ok(()),
    }
}

/// Appends which steps moved values on the port of a case last, and whether all who received there have left.
fn put_last(out: &mut Vec<u8>, place: u32, case: Case, there: AtPort) -> Result<(), AllocError>
    ensures { OnOk result (out.new.items ≡ out.old.items ++ last_words place case there) }
{
    put_number(out, b";", case.port().0.into())?;
    put_back(out, b"L", place, there.sender)?;
    put_back(out, b",", place, there.receiver)?;
    put_gone(out, case, there.gone)
}

/// Appends for whom a call perhaps waits.
fn put_whom(out: &mut Vec<u8>, own: &Told, whom: Option<u8>) -> Result<(), AllocError>
    ensures { OnOk result (out.new.items ≡ out.old.items ++ whom_words own.now whom) }
{
    match whom {
        Some(pid) => {
            put_number(out, b";", own.event.pid.0.into())?;
            put_number(out, b">", pid.into())
        }
        None => Ok(()),
    }
}

/// A step that stalled calls.
#[derive(Clone, Copy)]
struct Stall<'a> {
    /// The step.
    line: &'a Line<'a>,
    /// The calls that it stalled.
    stalled: &'a [Told],
}

/// Appends what is told of a case of a call, where this is known of its port.
fn put_waiting(
    out: &mut Vec<u8>,
    stall: &Stall<'_>,
    own: &Told,
    there: AtPort,
    case: Case,
) -> Result<(), AllocError>
    ensures { OnOk result (out.new.items ≡ out.old.items ++ case_words (entries_of stall.now.line.now)
        stall.now.line.now.place stall.now.stalled.now own.now there case) }
{
    put_last(out, stall.line.place, case, there)?;
    let entries = stall.line.known.entries();
    put_whom(out, own, whom(entries, stall.stalled, own, there, case))
}

/// Appends what is told of a case of a call.
fn put_case(out: &mut Vec<u8>, stall: &Stall<'_>, own: &Told, case: &Case) -> Result<(), AllocError>
    requires { IsLine stall.now.line.now }
    ensures { OnOk result (out.new.items ≡ out.old.items ++ case_of stall.now own.now case.now) }
{
    let there = stall.line.past.seen.last.at(case.port());
    put_waiting(out, stall, own, there, *case)
}

/// Appends what is told of these cases of a call.
fn put_cases(
    out: &mut Vec<u8>,
    stall: &Stall<'_>,
    own: &Told,
    cases: &[Case],
) -> Result<(), AllocError>
    requires { IsLine stall.now.line.now }
    ensures { OnOk result (out.new.items ≡ out.old.items ++ flat_map (case_of stall.now own.now) cases.now) }
{
    for case in cases {
        put_case(out, stall, own, case)?;
    }
    Ok(())
}

/// Appends what is told of a call.
fn put_call(out: &mut Vec<u8>, stall: &Stall<'_>, own: &Told) -> Result<(), AllocError>
    requires { IsLine stall.now.line.now }
    ensures { OnOk result (out.new.items ≡ out.old.items ++ call_of stall.now own.now) }
{
    let mut room = CaseRoom::new();
    let entries = stall.line.known.entries();
    put_cases(
        out,
        stall,
        own,
        entries.cases_at(own.asked as usize, &mut room),
    )
}

/// Appends what is told of all calls that a step stalled.
fn put_stall(out: &mut Vec<u8>, stall: &Stall<'_>) -> Result<(), AllocError>
    requires { IsLine stall.now.line.now }
    ensures { OnOk result (out.new.items ≡ out.old.items ++ flat_map (call_of stall.now) stall.now.stalled.now) }
{
    for own in stall.stalled {
        put_call(out, stall, own)?;
    }
    Ok(())
}

/// Appends what is told of all calls that the step stalled.
pub(crate) fn put_stalled(out: &mut Vec<u8>, line: &Line<'_>) -> Result<(), AllocError>
    requires { IsLine line.now }
    ensures { OnOk result (out.new.items ≡ out.old.items ++ stall_words (entries_of line.now) (told_of line.now) line.now.place
        (stalled_by (told_of line.now) line.now.place)) }
{
    let stalled = stalled_of(*out.allocator(), line.came)?;
    put_stall(
        out,
        &Stall {
            line,
            stalled: &stalled,
        },
    )
}
