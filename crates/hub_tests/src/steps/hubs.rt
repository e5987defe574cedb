//! A hub, step by step: what it shows, full journals, and reservations.

use super::entries::{Ask, DONE, MADE, MADE_SECOND, PARKED, SENT, STALLED, Told};
use super::rows::{Row, Story, count_run, entries_of, tell};
use crate::compare::same;
use hub_base::{Counts, Edition, Entry, Fault, Look};
use hub_core::ListFault;
use std::alloc::Global;
use std::process::Abort;
use std::test::Fail;

const STORIES: &[Story] = &[
    (
        "closed_port_shows_its_counts",
        Edition::One,
        1,
        100,
        USED_UP,
    ),
    ("buffer_shows_its_values", Edition::One, 2, 100, BUFFERED),
    ("open_call_is_cancelled", Edition::Two, 3, 100, CANCELLING),
    ("process_is_started_again", Edition::Three, 2, 100, STARTING),
    ("port_is_opened_again", Edition::Three, 2, 100, REOPENING),
    (
        "full_journal_takes_exits_alone",
        Edition::One,
        2,
        1,
        FILLING,
    ),
    (
        "hub_of_one_process_makes_one_step",
        Edition::One,
        1,
        1,
        ONE_STEP,
    ),
    ("reserved_steps_are_made", Edition::One, 1, 100, RESERVING),
];

#[test]
fn each_story_is_told(rt: HostRuntime) {
    for story in STORIES {
        tell(&rt, rt.alloc(), story);
    }
}

/// A value goes through port 1, which is closed and drained; then a send and a close come too late.
pub(super) const USED_UP: &[Row] = &[
    Row::Steps(0, Ask::Make(2), &[(0, MADE)]),
    Row::Steps(0, Ask::Send(1, 7), &[(0, SENT)]),
    Row::Steps(0, Ask::Close(1), &[(0, DONE)]),
    Row::Steps(0, Ask::Recv(1), &[(0, Told::Got(0, 7))]),
    Row::Steps(0, Ask::Recv(1), &[(0, DRAINED)]),
    Row::Steps(0, Ask::Send(1, 8), &[(0, CLOSED)]),
    Row::Steps(0, Ask::Close(1), &[(0, CLOSED_BEFORE)]),
    Row::Shows(1, Some(USED)),
    Row::Shows(0, None),
    Row::Shows(2, None),
    Row::Shows(65, None),
    Row::Shows(65535, None),
];

/// One value was sent and received, and the port is closed.
const USED: Look = Look {
    cap: 2,
    counts: Counts {
        len: 0,
        sent: 1,
        received: 1,
        closed: true,
    },
};

pub(super) const DRAINED: Told = Told::Drained(0);

const CLOSED: Told = Told::Closed(0);

pub(super) const CLOSED_BEFORE: Told = Told::Fault(Fault::AlreadyClosed);

const BUFFERED: &[Row] = &[
    Row::Steps(0, Ask::Make(2), &[(0, MADE)]),
    Row::Steps(0, Ask::Send(1, 5), &[(0, SENT)]),
    Row::Steps(0, Ask::Send(1, 6), &[(0, SENT)]),
    Row::Steps(0, Ask::Recv(1), &[(0, Told::Got(0, 5))]),
    Row::Steps(0, Ask::Send(1, 7), &[(0, SENT)]),
    Row::Steps(1, Ask::Send(1, 8), &[(1, PARKED)]),
    Row::Holds(1, 0, Some(6)),
    Row::Holds(1, 1, Some(7)),
    Row::Holds(1, 2, None),
    Row::Holds(1, 4294967295, None),
    Row::Holds(0, 0, None),
    Row::Holds(2, 0, None),
];

const NOBODY: &[(u8, Told)] = &[(0, Told::Fault(Fault::NotParked))];

const CANCELLED: Told = Told::Cancelled;

// A call that waits on two ports is cancelled: it waits on neither. Nobody else has an open call, and what is
// answered so is journaled.
const CANCELLING: &[Row] = &[
    Row::Steps(0, Ask::Make(0), &[(0, MADE)]),
    Row::Steps(0, Ask::Make(1), &[(0, MADE_SECOND)]),
    Row::Steps(1, Ask::RecvEither(1, 2), &[(1, PARKED)]),
    Row::Steps(0, Ask::Cancel(1), &[(0, DONE), (1, CANCELLED)]),
    Row::Steps(0, Ask::Cancel(1), NOBODY),
    Row::Steps(0, Ask::Cancel(0), NOBODY),
    Row::Steps(0, Ask::Cancel(2), NOBODY),
    Row::Steps(0, Ask::Cancel(3), NOBODY),
    Row::Steps(0, Ask::Cancel(255), NOBODY),
    // Nobody receives from port 2, which has a buffer, nor from port 1.
    Row::Steps(0, Ask::Send(2, 5), &[(0, SENT)]),
    Row::Holds(2, 0, Some(5)),
    Row::Steps(0, Ask::Send(1, 6), &[(0, PARKED)]),
    Row::Keeps(11),
];

const NOT_GONE: &[(u8, Told)] = &[(0, Told::Fault(Fault::NotGone))];

// A process makes steps again once it is started, and exits again. Nobody else has exited.
const STARTING: &[Row] = &[
    Row::Steps(0, Ask::Make(1), &[(0, MADE)]),
    Row::Steps(1, Ask::Exit, &[(1, DONE)]),
    Row::Refuses(1, Ask::Send(1, 5), Fault::Gone),
    Row::Steps(0, Ask::Start(1), &[(0, DONE)]),
    Row::Steps(1, Ask::Send(1, 5), &[(1, SENT)]),
    Row::Steps(0, Ask::Start(1), NOT_GONE),
    Row::Steps(0, Ask::Start(0), NOT_GONE),
    Row::Steps(0, Ask::Start(2), NOT_GONE),
    Row::Steps(0, Ask::Start(255), NOT_GONE),
    Row::Steps(1, Ask::Exit, &[(1, DONE)]),
    Row::Steps(0, Ask::Start(1), &[(0, DONE)]),
    Row::Steps(1, Ask::Exit, &[(1, DONE)]),
    Row::Keeps(11),
    Row::Steps(0, Ask::Recv(1), &[(0, Told::Got(0, 5))]),
    Row::Steps(0, Ask::Recv(1), &[(0, PARKED), (0, STALLED)]),
];

const IN_USE: &[(u8, Told)] = &[(0, Told::Fault(Fault::InUse))];

// A port is opened again once it is closed and drained. Its counts go on, and its capacity is another.
const REOPENING: &[Row] = &[
    Row::Steps(0, Ask::Make(2), &[(0, MADE)]),
    Row::Steps(0, Ask::Reopen(1, 1), IN_USE),
    Row::Steps(0, Ask::Send(1, 5), &[(0, SENT)]),
    Row::Steps(0, Ask::Close(1), &[(0, DONE)]),
    Row::Steps(0, Ask::Reopen(1, 1), IN_USE),
    Row::Steps(0, Ask::Recv(1), &[(0, Told::Got(0, 5))]),
    Row::Steps(0, Ask::Reopen(2, 1), &[(0, Told::Fault(Fault::NoPort))]),
    Row::Steps(0, Ask::Reopen(0, 1), &[(0, Told::Fault(Fault::NilClose))]),
    Row::Steps(0, Ask::Reopen(1, 1025), &[(0, Told::Fault(Fault::BadCap))]),
    Row::Steps(0, Ask::Reopen(1, 1), &[(0, DONE)]),
    Row::Shows(1, Some(REOPENED)),
    Row::Steps(0, Ask::Send(1, 6), &[(0, SENT)]),
    Row::Steps(1, Ask::Send(1, 7), &[(1, PARKED)]),
    Row::Holds(1, 0, Some(6)),
    Row::Holds(1, 1, None),
    Row::Keeps(12),
];

/// One value was sent and received, and the port is open again.
const REOPENED: Look = Look {
    cap: 1,
    counts: Counts {
        len: 0,
        sent: 1,
        received: 1,
        closed: false,
    },
};

// No step but an exit is made once the journal is full.
const FILLING: &[Row] = &[
    Row::Steps(0, Ask::Make(0), &[(0, MADE)]),
    Row::Refuses(0, Ask::Recv(0), Fault::JournalFull),
    Row::Refuses(7, Ask::Recv(0), Fault::JournalFull),
    Row::Refuses(1, Ask::Make(0), Fault::JournalFull),
    Row::Refuses(0, Ask::Close(1), Fault::JournalFull),
    Row::Keeps(1),
    Row::Steps(0, Ask::Exit, &[(0, DONE)]),
    Row::Steps(1, Ask::Exit, &[(1, DONE)]),
    Row::Refuses(1, Ask::Exit, Fault::Gone),
    // 10 before 2
    Row::Refuses(1, Ask::Make(0), Fault::JournalFull),
];

// The second exit is refused, and not kept. What is told of these steps is not compared.
const RUNNING: &[Row] = &[
    Row::Steps(0, Ask::Make(0), &[]),
    Row::Steps(1, Ask::Recv(1), &[]),
    Row::Steps(0, Ask::Exit, &[]),
    Row::Steps(0, Ask::Exit, &[]),
    Row::Steps(2, Ask::Make(0), &[]),
];

#[test]
fn run_ends_where_the_journal_is_full(rt: HostRuntime) -> Result<(), Fail> {
    run_both(&rt, rt.alloc(), &entries_of(rt.alloc(), RUNNING)?);
    Ok(())
}

const FULL: ListFault = ListFault::At {
    index: 4,
    fault: Fault::JournalFull,
};

/// With a limit of two steps the last is refused, and with three it is made: four entries are kept of five answers.
fn run_both(rt: &impl Abort, alloc: Global, entries: &[Entry]) {
    for (limit, counts) in [(2, Err(FULL)), (3, Ok((4, 5)))] {
        same(rt, count_run(rt, alloc, 3, limit, entries), counts, limit);
    }
}

// The one step of a hub is made, and all but its exit are refused.
const ONE_STEP: &[Row] = &[
    Row::Steps(0, Ask::Make(0), &[(0, MADE)]),
    Row::Refuses(0, Ask::Recv(0), Fault::JournalFull),
    Row::Keeps(1),
    Row::Steps(0, Ask::Exit, &[(0, DONE)]),
    Row::Keeps(2),
];

const RESERVING: &[Row] = &[
    Row::Steps(0, Ask::Make(1), &[(0, MADE)]),
    Row::Reserves(3),
    Row::Reserves(0),
    Row::Steps(0, Ask::Send(1, 5), &[(0, SENT)]),
    Row::Steps(0, Ask::Recv(1), &[(0, Told::Got(0, 5))]),
    Row::Steps(0, Ask::Recv(1), &[(0, PARKED), (0, STALLED)]),
];
