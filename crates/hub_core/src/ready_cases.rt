//! Which cases of a call can proceed.
//! Go: "Send statements", "Receive operator", "Select statements".

ghost use Rattle.std.specs.Prelude.{◌≡◌, ◌≤◌, length, map, take};
ghost use Rattle.hub_parts.specs.Keeps.{AllMade};
ghost use Rattle.hub_core.specs.ListReady.{can_on, ready_on, number_of};
ghost use Rattle.hub_core.specs.ListKeeps.{IsNamed};

use hub_base::{CASE_PLACES, Case};
use hub_parts::{Board, Side};

/// Whether a case can proceed. All of its side's questions are asked, which costs less than to stop at the first that decides.
#[inline]
pub(crate) fn can_proceed(board: &Board, case: &Case) -> bool
    requires { IsNamed board.now case.now }
    ensures { result ≡ can_on board.now case.now }
{
    let port = case.port();
    if port.0 == 0 {
        return false;
    }
    let len = board.len(port);
    match case {
        Case::Send(_, _) => {
            board.closed(port) | board.waiting(port, Side::Recv) | (len < board.cap(port) as usize)
        }
        Case::Recv(_) => board.waiting(port, Side::Send) | (len > 0) | board.closed(port),
    }
}

/// Puts the numbers of the cases that can proceed, in order, and tells how many they are. Each case's number is put,
/// and counted only where the case can proceed: so there is no branch on it, which the processor would often miss. It stands
/// alone: where it is compiled into a step, its loop has too few registers.
#[inline(never)]
pub(crate) fn find_ready(board: &Board, cases: &[Case], ready: &mut [u8; CASE_PLACES]) -> usize
    requires few { length cases.now ≤ CASE_PLACES }
    requires named { AllMade (length board.now.ports) cases.now }
    ensures numbers { take result ready.new ≡ map number_of (ready_on board.now cases.now) }
    ensures few { result ≤ CASE_PLACES }
{
    let mut count = 0;
    for (i, case) in cases.iter().enumerate() {
        ready[count] = i as u8;
        count += usize::from(can_proceed(board, case));
    }
    count
}
