//! A call: which of its cases fires, and what follows where none can proceed.
//! Go: "Select statements".

ghost use Rattle.std.specs.Prelude.{◌≡◌, ◌≤◌, ◌<◌, ◌%◌, ◌∷◌, [], ℕ, true, false, length, slice_get, IfSome};
ghost use Rattle.std.specs.Option.{option_map};
ghost use Rattle.hub_base.specs.Steps.{tells};
ghost use Rattle.hub_parts.specs.Keeps.{AllMade};
ghost use Rattle.hub_core.specs.ListReady.{can_on, chosen_on};
ghost use Rattle.hub_core.specs.ListKeeps.{IsNamed};
ghost use Rattle.hub_core.specs.Hearing.{Heard};
ghost use Rattle.hub_core.specs.ListSteps.{wait_on, told_to_wait, open_on, placed};

use crate::ready_cases::{can_proceed, find_ready};
use hub_base::{CASE_PLACES, Case, CaseSlice, Event, Hears, Pid, What};
use hub_parts::Board;

/// A case that was chosen.
#[derive(Clone, Copy)]
pub(crate) struct Chosen<'a> {
    /// Its number in its call.
    pub(crate) index: u8,
    /// The case itself.
    pub(crate) case: &'a Case,
}

/// The number of the case that the choice word names among those that can proceed.
fn nth_ready(ready: &[u8], word: u64) -> Option<u8>
    ensures { result ≡ slice_get ready.now (word % length ready.now) }
{
    if ready.is_empty() {
        None
    } else {
        ready.get((word % ready.len() as u64) as usize).copied()
    }
}

/// The case of a call that has no other, where it can proceed: whatever the choice word is, it is chosen.
#[inline(always)]
fn choose_only<'a>(board: &Board, case: &'a Case) -> Option<Chosen<'a>>
    requires { IsNamed board.now case.now }
    ensures chosen { (word : ℕ) → option_map placed result ≡ chosen_on board.now (case.now ∷ []) word }
    ensures case { IfSome result (λ chosen. chosen.case.now ≡ case.now) }
    ensures can { IfSome result (λ chosen. can_on board.now chosen.case.now ≡ true) }
{
    if can_proceed(board, case) {
        Some(Chosen { index: 0, case })
    } else {
        None
    }
}

/// The case that the choice word names among those that can proceed. It is not copied, since a value is large.
#[inline(always)]
pub(crate) fn choose<'a>(board: &Board, cases: &'a [Case], word: u64) -> Option<Chosen<'a>>
    requires few { length cases.now ≤ CASE_PLACES }
    requires named { AllMade (length board.now.ports) cases.now }
    ensures chosen { option_map placed result ≡ chosen_on board.now cases.now word }
    ensures named { IfSome result (λ chosen. IsNamed board.now chosen.case.now) }
    ensures can { IfSome result (λ chosen. can_on board.now chosen.case.now ≡ true) }
{
    if cases.len() == 1 {
        return choose_only(board, &cases[0]);
    }
    let mut ready = [0; CASE_PLACES];
    let count = find_ready(board, cases, &mut ready);
    let index = nth_ready(&ready[..count], word)?;
    Some(Chosen {
        index,
        case: &cases[index as usize],
    })
}

/// A call of which no case can proceed takes its default, or parks.
pub(crate) fn park_or_default<E: Hears>(
    board: &mut Board,
    events: &mut E,
    ticket: u32,
    pid: Pid,
    cases: &CaseSlice<'_>,
    default: bool,
)
    requires below { pid.0 < board.old.procs }
    requires free { open_on board.old.waiting pid.0 ≡ false }
    requires named { AllMade (length board.old.ports) cases.now.items }
    requires later { board.old.next_ticket ≤ ticket }
    requires room { 0 < E.room events.old }
    ensures board { board.new ≡ wait_on board.old ticket pid cases.now.items default }
    ensures told { Heard E.heard E.room events.old events.new (tells pid (told_to_wait default) ∷ []) }
{
    if default {
        events.hear(Event {
            pid,
            what: What::Default,
        });
    } else {
        board.park(pid, ticket, cases);
        events.hear(Event {
            pid,
            what: What::Parked,
        });
    }
}
