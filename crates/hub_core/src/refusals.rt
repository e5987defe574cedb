//! Why a step is not admitted, and the faults that are answers to admitted steps.

ghost use Rattle.std.specs.Prelude.{◌≡◌, ◌≤◌, ◌<◌, Bool, List};
ghost use Rattle.hub_parts.specs.Records.{Lists};
ghost use Rattle.std.specs.List.{list_any};
ghost use Rattle.hub_base.specs.declared.entry.Step.TheVariants.{Make, Close, Cancel, Start, Reopen};
ghost use Rattle.hub_core.specs.Prelude.{Edition, port_of};
ghost use Rattle.hub_core.specs.ListSteps.{refusal_of, fault_on, call_fault_on, is_unmade_on};

use crate::exited::Exited;
use hub_base::{Case, Edition, Fault, MOST_CAP, MOST_PORTS, MOST_PROCS, Pid, Port};
use hub_parts::Board;

/// Why a step of this process is not admitted.
pub(crate) fn refusal(board: &Board, exited: &Exited, procs: u8, pid: Pid) -> Option<Fault>
    requires procs { board.now.procs ≡ procs }
    requires few { procs ≤ MOST_PROCS }
    ensures { result ≡ refusal_of board.now exited.now.gone pid }
{
    if pid.0 >= procs {
        Some(Fault::NoProcess)
    } else if exited.has(pid) {
        Some(Fault::Gone)
    } else if board.open(pid) {
        Some(Fault::Busy)
    } else {
        None
    }
}

fn is_unmade(board: &Board, port: Port) -> bool
    ensures { result ≡ is_unmade_on board.now port }
{
    board.ports() < port.0 as usize
}

fn names_unmade(board: &Board, cases: &[Case]) -> bool
    ensures { result ≡ list_any (λ c. is_unmade_on board.now (port_of c)) cases.now }
{
    cases.iter().any(|case| is_unmade(board, case.port()))
}

/// The fault of a call of these cases, in a hub of this edition.
pub(crate) fn call_fault(edition: Edition, board: &Board, cases: &[Case]) -> Option<Fault>
    ensures { result ≡ call_fault_on edition board.now cases.now }
{
    // Most calls have one case, which no edition refuses, and which is looked at without a loop.
    if cases.len() == 1 {
        return if is_unmade(board, cases[0].port()) {
            Some(Fault::NoPort)
        } else {
            None
        };
    }
    if cases.len() > edition.most_cases() {
        Some(Fault::TooManyCases)
    } else if names_unmade(board, cases) {
        Some(Fault::NoPort)
    } else {
        None
    }
}

/// The fault of a make.
pub(crate) fn make_fault(board: &Board, cap: u32) -> Option<Fault>
    ensures { (edition : Edition) (gone : List Bool) → result ≡ fault_on edition board.now gone (Make cap) }
{
    if cap > MOST_CAP {
        Some(Fault::BadCap)
    } else if board.ports() >= MOST_PORTS {
        Some(Fault::TooManyPorts)
    } else {
        None
    }
}

/// The fault of a close.
pub(crate) fn close_fault(board: &Board, port: Port) -> Option<Fault>
    ensures { (edition : Edition) (gone : List Bool) → result ≡ fault_on edition board.now gone (Close port) }
{
    if is_unmade(board, port) {
        Some(Fault::NoPort)
    } else if port.0 == 0 {
        Some(Fault::NilClose)
    } else if board.closed(port) {
        Some(Fault::AlreadyClosed)
    } else {
        None
    }
}

/// The fault of a cancel.
pub(crate) fn cancel_fault(board: &Board, other: Pid) -> Option<Fault>
    ensures { (edition : Edition) (gone : List Bool) → result ≡ fault_on edition board.now gone (Cancel other) }
{
    if board.open(other) {
        None
    } else {
        Some(Fault::NotParked)
    }
}

/// The fault of a start.
pub(crate) fn start_fault(exited: &Exited, other: Pid) -> Option<Fault>
    ensures { (edition : Edition) (board : Lists) → result ≡ fault_on edition board exited.now.gone (Start other) }
{
    if (other.0 as usize) < MOST_PROCS && exited.has(other) {
        None
    } else {
        Some(Fault::NotGone)
    }
}

/// The fault of a reopen.
pub(crate) fn reopen_fault(board: &Board, port: Port, cap: u32) -> Option<Fault>
    ensures { (edition : Edition) (gone : List Bool) → result ≡ fault_on edition board.now gone (Reopen port cap) }
{
    if is_unmade(board, port) {
        return Some(Fault::NoPort);
    }
    if cap > MOST_CAP {
        return Some(Fault::BadCap);
    }
    if port.0 == 0 {
        return Some(Fault::NilClose);
    }
    if board.closed(port) && board.len(port) == 0 {
        None
    } else {
        Some(Fault::InUse)
    }
}
