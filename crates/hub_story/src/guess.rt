//! For whom a stalled call perhaps waits: a guess.

ghost use Rattle.std.specs.Prelude.{◌≡◌};
ghost use Rattle.std.specs.List.{list_any};
ghost use Rattle.hub_story.specs.Leavers.{is_told_to};
ghost use Rattle.hub_story.specs.Whom.{can_help, helper, is_beside, waits_beside, whom};

use crate::outside::any_told_to;
use crate::{AtPort, Mover, Told};
use hub_base::Case;
use hub_core::{CaseRoom, ShortEntries};

/// Whether both send on one port, or both receive from it.
fn is_beside(case: Case, other: Case) -> bool
    ensures { result ≡ is_beside case other }
{
    match case {
        Case::Recv(port) => matches!(other, Case::Recv(same) if same.0 == port.0),
        Case::Send(port, _) => matches!(other, Case::Send(same, _) if same.0 == port.0),
    }
}

/// Whether one of these is.
fn any_beside(case: Case, cases: &[Case]) -> bool
    ensures { result ≡ list_any (is_beside case) cases.now }
{
    cases.iter().any(|other| is_beside(case, *other))
}

/// Whether the call is of this process.
fn is_of(pid: u8, told: &Told) -> bool
    ensures { result ≡ is_told_to pid told.now }
{
    told.event.pid.0 == pid
}

/// Whether the call is of this process, and waits beside the case.
fn waits_beside(entries: &ShortEntries, case: Case, pid: u8, told: &Told) -> bool
    ensures { result ≡ waits_beside entries.now case pid told.now }
{
    let mut room = CaseRoom::new();
    is_of(pid, told) && any_beside(case, entries.cases_at(told.asked as usize, &mut room))
}

/// Whether one of these does.
fn any_waits_beside(entries: &ShortEntries, case: Case, pid: u8, stalled: &[Told]) -> bool
    ensures { result ≡ list_any (waits_beside entries.now case pid) stalled.now }
{
    stalled
        .iter()
        .any(|told| waits_beside(entries, case, pid, told))
}

/// Whether a call that waits by this case may wait for the process.
fn can_help(entries: &ShortEntries, stalled: &[Told], own: &Told, case: Case, pid: u8) -> bool
    ensures { result ≡ can_help entries.now stalled.now own.now case pid }
{
    !is_of(pid, own) && any_told_to(pid, stalled) && !any_waits_beside(entries, case, pid, stalled)
}

/// The process that moved a value, where the call may wait for it.
fn helper(
    entries: &ShortEntries,
    stalled: &[Told],
    own: &Told,
    case: Case,
    mover: Option<Mover>,
) -> Option<u8>
    ensures { result ≡ helper entries.now stalled.now own.now case mover }
{
    match mover {
        Some(mover) if can_help(entries, stalled, own, case, mover.pid.0) => Some(mover.pid.0),
        _ => None,
    }
}

/// For which process the call perhaps waits by this case, where this is known of its port. The call is one of these, which a
/// step stalled.
pub fn whom(
    entries: &ShortEntries,
    stalled: &[Told],
    own: &Told,
    there: AtPort,
    case: Case,
) -> Option<u8>
    ensures { result ≡ whom entries.now stalled.now own.now there case }
{
    let by_sender = helper(entries, stalled, own, case, there.sender);
    let by_receiver = helper(entries, stalled, own, case, there.receiver);
    match case {
        Case::Recv(_port) => by_sender.or(by_receiver),
        Case::Send(_port, _value) => by_receiver.or(by_sender),
    }
}
