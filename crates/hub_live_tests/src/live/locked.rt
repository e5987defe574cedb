//! Which answers wait for which process under the lock of a live hub.

use super::{
    Ask, DONE, DRAINED, MADE, ONE_WAITS, PARKED, SENT, STALLED, Told, answer, compare, entry_of,
};
use crate::compare::same;
use hub_base::{Edition, Entry, Event, Fault, Look, Pid, Port};
use hub_core::{CaseRoom, Hub};
use hub_live::under_lock::Locked;
use std::alloc::Global;
use std::process::Abort;

/// What happens under the lock.
#[derive(Clone, Copy)]
enum Row {
    /// The process makes a step, and is told.
    Asks(u8, Ask, Told),
    /// This answer waits for the process, and is taken.
    Takes(u8, Told),
    /// No answer waits for it.
    FindsNone(u8),
    /// The step before ended the call of process 1 and no other, or none.
    Ended(&'static [Pid]),
    /// Port 1 has a place, and one value waits there.
    OneWaits,
    /// The entry at this place of the journal: what this process asked for, or none.
    HasEntry(usize, Option<(u8, Ask)>),
}

/// Makes a step, which the hub's edition must have.
fn make_step(rt: &impl Abort, locked: &mut Locked, entry: Entry) -> Result<Event, Fault> {
    assert!(rt; entry.fits(locked.head().edition));
    locked.step(&entry.by_slice())?;
    Ok(*locked.answer())
}

fn follow_row(rt: &impl Abort, locked: &mut Locked, row: Row, place: (&str, usize)) {
    match row {
        Row::Asks(pid, asked, told) => {
            let answer = make_step(rt, locked, entry_of(pid, asked));
            compare(rt, answer, Pid(pid), told, place);
        }
        Row::Takes(pid, told) => {
            let taken = locked.take(Pid(pid)).ok_or(Fault::NotParked);
            same(rt, taken, answer(Pid(pid), told), place);
        }
        Row::FindsNone(pid) => same(rt, locked.take(Pid(pid)), None, place),
        Row::Ended(pids) => same(rt, locked.ended().as_slice(), pids, place),
        Row::OneWaits => same(rt, locked.look(Port(1)), Some(ONE_VALUE), place),
        Row::HasEntry(at, asked) => same(rt, has_entry(locked, at, asked), true, place),
    }
}

/// Whether this process asked for this at this place of the journal, or nothing stands there.
fn has_entry(locked: &Locked, at: usize, asked: Option<(u8, Ask)>) -> bool {
    let mut room = CaseRoom::new();
    match (locked.entry(at, &mut room), asked) {
        (Some(entry), Some((pid, asked))) => entry.to_owned() == entry_of(pid, asked),
        (None, None) => true,
        _ => false,
    }
}

const ONE_VALUE: Look = Look {
    cap: 1,
    counts: ONE_WAITS,
};

fn follow(rt: &impl Abort, locked: &mut Locked, name: &str, rows: &[Row]) {
    for (place, row) in rows.iter().enumerate() {
        follow_row(rt, locked, *row, (name, place));
    }
}

/// What happens under the lock of a hub: its name, how many processes the hub has, its limit, what happens, and how many
/// entries its journal has in the end.
type Story<'a> = (&'a str, u8, u32, &'a [Row], usize);

fn tell(rt: &impl Abort, alloc: Global, story: &Story) {
    let (name, procs, limit, _, _) = *story;
    match Hub::open(alloc, procs, limit, Edition::Two) {
        Ok(hub) => tell_of(rt, Locked::of(hub), story),
        Err(fault) => same(rt, Some(fault), None, (name, "opening")),
    }
}

fn tell_of(rt: &impl Abort, locked: Locked, story: &Story) {
    let (name, procs, _, rows, entries) = *story;
    let mut locked = locked;
    follow(rt, &mut locked, name, rows);
    same(rt, locked.len(), entries, (name, "entries"));
    let journal = locked.into_journal();
    let found = (journal.procs(), journal.entries().len());
    same(rt, found, (procs, entries), (name, "journal"));
}

const STORIES: &[Story] = &[
    ("answer_waits_until_it_is_taken", 2, 10, PASSING, 3),
    ("steps_are_kept", 2, 10, SENDING, 2),
    ("entries_are_shown_between_steps", 2, 10, SHOWING, 5),
    ("only_process_stalls_and_finds_its_answer", 1, 10, ALONE, 1),
    ("each_stalled_process_finds_its_answer", 2, 10, BOTH, 2),
    ("close_answers_each_receiver", 3, 10, CLOSING, 4),
    ("cancelled_call_finds_its_answer", 2, 10, CANCELLING, 5),
    ("refusal_leaves_what_waits", 3, 3, REFUSING, 3),
    ("next_step_drops_what_waits", 2, 3, DROPPING, 4),
];

#[test]
fn each_story_is_told(rt: HostRuntime) {
    for story in STORIES {
        tell(&rt, rt.alloc(), story);
    }
}

// A receiver parks, a sender's step ends its call, and the value waits for the receiver.
const PASSING: &[Row] = &[
    Row::Asks(0, Ask::Make(0), MADE),
    Row::Asks(1, Ask::Recv, PARKED),
    Row::FindsNone(1),
    Row::Ended(&[]),
    Row::Asks(0, Ask::Send(9), SENT),
    Row::Ended(&[Pid(1)]),
    Row::FindsNone(0),
    Row::Takes(1, Told::Got(9)),
    Row::FindsNone(1),
];

// Each time an entry is shown the journal is written out, and the steps behind it are kept short again.
const SHOWING: &[Row] = &[
    Row::HasEntry(0, None),
    Row::Asks(0, Ask::Make(1), MADE),
    Row::HasEntry(0, Some((0, Ask::Make(1)))),
    Row::Asks(0, Ask::Send(9), SENT),
    Row::Asks(1, Ask::Recv, Told::Got(9)),
    Row::HasEntry(2, Some((1, Ask::Recv))),
    Row::HasEntry(1, Some((0, Ask::Send(9)))),
    Row::HasEntry(3, None),
    Row::Asks(1, Ask::Exit, DONE),
    Row::Asks(0, Ask::Close, DONE),
    Row::HasEntry(4, Some((0, Ask::Close))),
    Row::HasEntry(3, Some((1, Ask::Exit))),
    Row::HasEntry(0, Some((0, Ask::Make(1)))),
];

// What is looked at, and what is kept.
const SENDING: &[Row] = &[
    Row::Asks(0, Ask::Make(1), MADE),
    Row::Asks(1, Ask::Send(9), SENT),
    Row::OneWaits,
];

// The call of an only process parks and stalls, alone.
const ALONE: &[Row] = &[
    Row::Asks(0, Ask::RecvNil, PARKED),
    Row::Takes(0, STALLED),
    Row::FindsNone(0),
];

// The call of the last parks and then stalls, in one step.
const BOTH: &[Row] = &[
    Row::Asks(0, Ask::RecvNil, PARKED),
    Row::Asks(1, Ask::RecvNil, PARKED),
    Row::Takes(0, STALLED),
    Row::FindsNone(0),
    Row::Takes(1, STALLED),
    Row::FindsNone(1),
];

// Go: "Close". Both receivers learn of it, and the step's own answer waits for nobody.
const CLOSING: &[Row] = &[
    Row::Asks(0, Ask::Make(0), MADE),
    Row::Asks(1, Ask::Recv, PARKED),
    Row::Asks(2, Ask::Recv, PARKED),
    Row::Asks(0, Ask::Close, DONE),
    Row::FindsNone(0),
    Row::Takes(1, DRAINED),
    Row::Takes(2, DRAINED),
];

// The call that is cancelled is answered by that alone, and its process makes its next step.
const CANCELLING: &[Row] = &[
    Row::Asks(0, Ask::Make(0), MADE),
    Row::Asks(1, Ask::Recv, PARKED),
    Row::Asks(0, Ask::Cancel, DONE),
    Row::Ended(&[Pid(1)]),
    Row::Takes(1, Told::Cancelled),
    Row::Asks(0, Ask::Cancel, Told::Fault(Fault::NotParked)),
    Row::FindsNone(1),
    Row::Asks(1, Ask::Recv, PARKED),
];

const REFUSING: &[Row] = &[
    Row::Asks(0, Ask::Make(0), MADE),
    Row::Asks(1, Ask::Recv, PARKED),
    Row::Asks(7, Ask::Exit, Told::Refused(Fault::NoProcess)),
    Row::Asks(1, Ask::Exit, Told::Refused(Fault::Busy)),
    Row::Asks(0, Ask::Send(9), SENT),
    Row::Asks(1, Ask::Recv, Told::Refused(Fault::JournalFull)),
    Row::Takes(1, Told::Got(9)),
];

// The caller's next step, here an exit from a full journal, drops what waited for it.
const DROPPING: &[Row] = &[
    Row::Asks(0, Ask::Make(0), MADE),
    Row::Asks(1, Ask::Recv, PARKED),
    Row::Asks(0, Ask::Send(9), SENT),
    Row::Asks(1, Ask::Exit, DONE),
    Row::FindsNone(1),
    Row::Asks(1, Ask::Exit, Told::Refused(Fault::Gone)),
];
