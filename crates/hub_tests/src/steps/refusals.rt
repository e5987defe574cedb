//! What stays of a hub where memory is refused. The gate has memory; `tests/drive/refusals.py` runs these tests with
//! their allocations refused that come after `begin`.

use super::entries::{Ask, DONE, MADE, MADE_SECOND, PARKED, SENT, STALLED, Told, event_of};
use super::hubs::USED_UP;
use super::rows::{Row, are_kept, begin, entries_of, run_all, tell};
use crate::compare::same;
use hub_base::{Edition, Entry, Event, Fault};
use hub_core::{Hub, ListFault, OpenFault};
use std::alloc::Global;
use std::process::Abort;
use std::test::Fail;

const ON_TWO_PORTS: &[Row] = &[
    Row::Steps(0, Ask::Make(0), &[(0, MADE)]),
    Row::Steps(0, Ask::Make(0), &[(0, MADE_SECOND)]),
    Row::Steps(1, Ask::RecvEither(1, 2), &[(1, PARKED)]),
    Row::Steps(0, Ask::Send(2, 8), &[(0, SENT), (1, Told::Got(1, 8))]),
    Row::Steps(0, Ask::Send(1, 9), &[(0, PARKED)]),
    Row::Steps(1, Ask::Recv(1), &[(1, Told::Got(0, 9)), (0, SENT)]),
];

// A call that waits on two ports ends at the second, and then another on the first.
#[test]
fn refused_opening_and_steps_are_made_again(rt: HostRuntime) {
    begin(rt.alloc());
    tell(
        &rt,
        rt.alloc(),
        &("two ports", Edition::One, 3, 100, ON_TWO_PORTS),
    );
}

const BUFFERED: &[Row] = &[
    Row::Steps(0, Ask::Make(2), &[(0, MADE)]),
    Row::Steps(0, Ask::Send(1, 5), &[(0, SENT)]),
    Row::Steps(0, Ask::Send(1, 6), &[(0, SENT)]),
    Row::Steps(0, Ask::Make(1), &[(0, MADE_SECOND)]),
    Row::Steps(0, Ask::Recv(1), &[(0, Told::Got(0, 5))]),
    Row::Steps(0, Ask::Close(1), &[(0, DONE)]),
    Row::Steps(0, Ask::Recv(1), &[(0, Told::Got(0, 6))]),
];

// Values in a buffer stay where a step is refused.
#[test]
fn refused_steps_leave_the_buffer(rt: HostRuntime) {
    begin(rt.alloc());
    tell(&rt, rt.alloc(), &("buffer", Edition::One, 1, 100, BUFFERED));
}

/// Runs these entries and, where memory was refused, once more. Tells the place of the entry at which it was.
fn run_again<R: Abort + Print>(
    rt: &R,
    alloc: Global,
    entries: &[Entry],
) -> Result<(Hub, Vec<Event>), ListFault> {
    match run_all(rt, alloc, 1, 100, entries) {
        Err(fault) if is_refused_memory(rt, fault) => run_all(rt, alloc, 1, 100, entries),
        ran => ran,
    }
}

/// Whether memory was refused. Tells at which entry, if it was there.
fn is_refused_memory(rt: &impl Print, fault: ListFault) -> bool {
    match fault {
        ListFault::Open(fault) => fault == OpenFault::NoMemory,
        ListFault::At { index, fault } => {
            let is_refused = fault == Fault::NoMemory;
            if is_refused {
                let _ = println!(rt; "refused at {index}");
            }
            is_refused
        }
    }
}

#[test]
fn refused_run_is_made_again(rt: HostRuntime) -> Result<(), Fail> {
    compare_run(&rt, rt.alloc(), &entries_of(rt.alloc(), USED_UP)?);
    Ok(())
}

/// The steps of a port that is used up are kept, and an event is told of each, where memory may be refused.
fn compare_run<R: Abort + Print>(rt: &R, alloc: Global, entries: &[Entry]) {
    begin(alloc);
    match run_again(rt, alloc, entries) {
        Ok(ran) => is_used_up(rt, ran),
        Err(fault) => same(rt, Some(fault), None, "run"),
    }
}

fn is_used_up(rt: &impl Abort, ran: (Hub, Vec<Event>)) {
    are_kept(rt, "run", ran.0.entries(), USED_UP);
    each_is_told(rt, &ran.1, USED_UP);
}

/// What is told of the step at this place, if that is one event.
fn told_at(rows: &[Row], place: usize) -> Option<Event> {
    match rows.get(place) {
        Some(Row::Steps(_, _, [(pid, told)])) => Some(event_of(*pid, *told)),
        _ => None,
    }
}

/// An event is told of each step of these rows.
fn each_is_told(rt: &impl Abort, events: &[Event], rows: &[Row]) {
    same(rt, events.len(), 7, "events");
    for (place, event) in events.iter().enumerate() {
        same(rt, Some(*event), told_at(rows, place), place);
    }
}

const RESERVED: &[Row] = &[
    Row::Reserves(5),
    Row::Steps(0, Ask::Make(1), &[(0, MADE)]),
    Row::Steps(0, Ask::Send(1, 5), &[(0, SENT)]),
    Row::Steps(1, Ask::Recv(1), &[(1, Told::Got(0, 5))]),
];

#[test]
fn refused_reservation_is_made_again(rt: HostRuntime) {
    begin(rt.alloc());
    tell(
        &rt,
        rt.alloc(),
        &("reserved", Edition::One, 3, 100, RESERVED),
    );
}

const WITHOUT_MEMORY: &[Row] = &[
    Row::Steps(0, Ask::Make(1), &[(0, MADE)]),
    Row::Reserves(100_000),
    Row::Begins,
    Row::Steps(2, Ask::Recv(0), &[(2, PARKED)]),
    Row::Steps(0, Ask::Send(1, 5), &[(0, SENT)]),
    Row::Steps(0, Ask::Recv(1), &[(0, Told::Got(0, 5))]),
    Row::Steps(1, Ask::Recv(1), &[(1, PARKED)]),
    Row::Steps(
        0,
        Ask::Recv(1),
        &[(0, PARKED), (2, STALLED), (1, STALLED), (0, STALLED)],
    ),
];

const THREE_WITHOUT_MEMORY: &[Row] = &[
    Row::Steps(0, Ask::Make(1), &[(0, MADE)]),
    Row::Reserves(3),
    Row::Begins,
    Row::Steps(0, Ask::Send(1, 5), &[(0, SENT)]),
    Row::Steps(0, Ask::Recv(1), &[(0, Told::Got(0, 5))]),
    Row::Steps(0, Ask::Recv(1), &[(0, PARKED), (0, STALLED)]),
];

// As many steps as were reserved, by the only process.
#[test]
fn three_reserved_steps_take_no_memory(rt: HostRuntime) {
    tell(
        &rt,
        rt.alloc(),
        &("three", Edition::One, 1, 10, THREE_WITHOUT_MEMORY),
    );
}

// A wait on the nil channel, a send, a receive, a wait on a port and a stall.
#[test]
fn reserved_steps_take_no_memory(rt: HostRuntime) {
    tell(
        &rt,
        rt.alloc(),
        &("all", Edition::One, 3, 1_000_000, WITHOUT_MEMORY),
    );
}
