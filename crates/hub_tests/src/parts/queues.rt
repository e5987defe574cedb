//! Queues: how long dead entries stay in those of a board.

ghost use Rattle.std.specs.Prelude.{◌≡◌, ◌≤◌, ◌<◌, ◌+◌, ◌∷◌, [], length};

use crate::compare::same;
use hub_base::{Case, CaseSlice, Cases, Pid, Port};
use hub_parts::{Board, Side};
use std::process::Abort;

/// The entries of the first port's receivers after this many selects, where a row says.
fn entries_after(selects: u32) -> Option<u32> {
    match selects {
        49 => Some(49),
        50 => Some(1),
        100 => Some(2),
        101 => Some(3),
        _ => None,
    }
}

fn cases_of(first: Case, second: Case) -> Cases
    ensures { result.items ≡ first ∷ second ∷ [] }
{
    let mut cases = Cases::new();
    cases.push(first);
    cases.push(second);
    cases
}

/// Process 1 waits on both ports, to receive.
fn select(rt: &impl Abort, board: &mut Board, ticket: u32)
    requires procs { board.old.procs ≡ 2 }
    requires ports { length board.old.ports ≡ 2 }
    requires later { board.old.next_ticket ≤ ticket }
    ensures procs { board.new.procs ≡ 2 }
    ensures ports { length board.new.ports ≡ 2 }
    ensures later { board.new.next_ticket ≡ ticket + 1 }
{
    assert!(rt; !board.open(Pid(1)), "it waits no more");
    let cases = cases_of(Case::Recv(Port(1)), Case::Recv(Port(2)));
    board.park(Pid(1), ticket, &CaseSlice::of(&cases));
}

/// A select is served at the port of one of its two cases.
fn serve(rt: &impl Abort, board: &mut Board, case: u8)
    requires case { case < 2 }
    requires ports { length board.old.ports ≡ 2 }
    ensures procs { board.new.procs ≡ board.old.procs }
    ensures ports { length board.new.ports ≡ 2 }
    ensures later { board.new.next_ticket ≡ board.old.next_ticket }
{
    let ended = board.take(Port(u16::from(case) + 1), Side::Recv);
    let served = ended.map(|ended| (ended.pid, ended.index));
    same(rt, served, Some((Pid(1), case)), case);
}

/// Process 1 selects 101 times, and is served at the second port but for the last time.
fn select_and_serve(rt: &impl Abort, board: &mut Board)
    requires procs { board.old.procs ≡ 2 }
    requires ports { length board.old.ports ≡ 2 }
    requires later { board.old.next_ticket ≤ 1 }
    ensures ports { length board.new.ports ≡ 2 }
{
    for selects in 1..102 {
        select(rt, board, selects);
        if let Some(entries) = entries_after(selects) {
            same(rt, board.stored(Port(1), Side::Recv), entries, selects);
        }
        serve(rt, board, if selects == 101 { 0 } else { 1 });
    }
}

// A select that waits on two ports and is served on the second leaves a dead entry on the first. Two processes have
// 64 places there; the 50th select finds fewer than 16 of them free, and so does the 99th.
#[test]
fn dead_entries_go_when_room_is_short(rt: HostRuntime) {
    let mut board = Board::new(rt.alloc(), 2).expect(&rt, "memory for a board");
    board.make(0).expect(&rt, "memory for a port");
    board.make(0).expect(&rt, "memory for a port");
    select_and_serve(&rt, &mut board);
    let is_empty = board.take(Port(1), Side::Recv).is_none();
    same(&rt, is_empty, true, "in the end");
    same(&rt, board.stored(Port(1), Side::Recv), 0, "in the end");
}
