//! Which answers wait at a hub that never ends, and which chapters it hands out.

use super::{Ask, DONE, MADE, PARKED, SENT, Told, answer, entry_of};
use crate::compare::same;
use hub_base::{Edition, Entry, Event, Fault, Pid, Port};
use hub_core::ShortHub;
use hub_cut::Totals;
use hub_served::EndlessHub;
use std::process::Abort;

/// What happens at the hub.
#[derive(Clone, Copy)]
enum Row {
    /// The process makes a step, and is told. A chapter of so many entries is handed out, or none.
    Asks(u8, Ask, Told, Option<usize>),
    /// This answer waits for the process, and is taken.
    Takes(u8, Told),
    /// No answer waits for it.
    FindsNone(u8),
    /// The step before ended the calls of these.
    Ended(&'static [Pid]),
    /// The hub is cut, and a chapter of so many entries is handed out, or none.
    Cuts(Option<usize>),
    /// Whether this step would begin a chapter.
    Begins(Ask, bool),
    /// How many entries the chapter before has, and the present one.
    Keeps(Option<usize>, usize),
}

/// How many entries a chapter has, if there is one.
fn len_of(chapter: Option<ShortHub>) -> Option<usize> {
    match chapter {
        Some(chapter) => Some(count(chapter)),
        None => None,
    }
}

fn count(chapter: ShortHub) -> usize {
    chapter.len()
}

/// How the hub, whose edition must have the step, answers it, and how many entries the chapter has that it hands out.
fn ask(
    rt: &impl Abort,
    hub: &mut EndlessHub,
    entry: &Entry,
) -> (Result<Event, Fault>, Option<usize>) {
    assert!(rt; entry.fits(hub.head().edition));
    let mut out = None;
    let answer = match hub.step(&entry.by_slice(), &mut out) {
        Ok(()) => Ok(*hub.answer()),
        Err(fault) => Err(fault),
    };
    (answer, len_of(out))
}

/// How many entries the chapter has that a cut hands out, if memory suffices.
fn cut(hub: &mut EndlessHub) -> Option<Option<usize>> {
    match hub.cut() {
        Ok(chapter) => Some(len_of(chapter)),
        Err(_) => None,
    }
}

/// How many entries the chapters have that are kept.
fn kept(hub: &EndlessHub) -> (Option<usize>, usize) {
    let before = match hub.before() {
        Some(chapter) => Some(chapter.len()),
        None => None,
    };
    (before, hub.present().len())
}

fn follow_row(rt: &impl Abort, hub: &mut EndlessHub, row: Row, place: usize) {
    match row {
        Row::Asks(pid, asked, told, handed) => {
            let found = ask(rt, hub, &entry_of(pid, asked));
            same(rt, found, (answer(Pid(pid), told), handed), place);
        }
        Row::Takes(pid, told) => {
            let taken = hub.take(Pid(pid)).ok_or(Fault::NotParked);
            same(rt, taken, answer(Pid(pid), told), place);
        }
        Row::FindsNone(pid) => same(rt, hub.take(Pid(pid)), None, place),
        Row::Ended(pids) => same(rt, hub.ended().as_slice(), pids, place),
        Row::Cuts(handed) => same(rt, cut(hub), Some(handed), place),
        Row::Begins(asked, begins) => {
            let found = hub.begins(&entry_of(0, asked).step.by_slice());
            same(rt, found, begins, place);
        }
        Row::Keeps(before, present) => same(rt, kept(hub), (before, present), place),
    }
}

// Two steps make a chapter full, and an exit may follow. The answer of process 1 waits across two cuts, and the counts go on.
const WAITING: &[Row] = &[
    Row::Asks(0, Ask::Make(0), MADE, None),
    Row::Asks(1, Ask::Recv, PARKED, None),
    Row::Begins(Ask::Close, true),
    Row::Begins(Ask::Exit, false),
    Row::Asks(0, Ask::Send(9), SENT, None),
    Row::Ended(&[Pid(1)]),
    Row::Keeps(Some(2), 3),
    Row::Cuts(Some(2)),
    Row::Keeps(Some(3), 1),
    Row::Begins(Ask::Close, false),
    Row::Cuts(Some(3)),
    Row::Takes(1, Told::Got(9)),
    Row::FindsNone(1),
    Row::Asks(0, Ask::Close, DONE, None),
    Row::Asks(0, Ask::Close, Told::Fault(Fault::AlreadyClosed), None),
    Row::Asks(1, Ask::Exit, DONE, None),
    Row::Ended(&[]),
    Row::Keeps(Some(1), 4),
];

const PASSED: Totals = Totals {
    cap: 0,
    len: 0,
    sent: 1,
    received: 1,
    closed: true,
};

fn tell(rt: &impl Abort, hub: EndlessHub) {
    let mut hub = hub;
    for (place, row) in WAITING.iter().enumerate() {
        follow_row(rt, &mut hub, *row, place);
    }
    same(rt, hub.look(Port(1)), Some(PASSED), "counts");
}

#[test]
fn answers_wait_across_cuts(rt: HostRuntime) {
    match EndlessHub::open(rt.alloc(), 2, 2, Edition::Two) {
        Ok(hub) => tell(&rt, hub),
        Err(fault) => same(&rt, Some(fault), None, "opening"),
    }
}
