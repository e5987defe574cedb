//! A hub that was cut answers as the one that was not, and so does a hub that cuts itself. The gate has memory;
//! `tests/drive/refusals.py` runs `refused_chapters_are_begun_again` with its allocations refused that come after `begin`.

use super::entries::{
    Ask, DONE, MADE, MADE_SECOND, PARKED, SENT, Told, are_told, entry_of, is_made,
};
use super::hubs::{CLOSED_BEFORE, DRAINED};
use super::rows::{Row, begin};
use crate::compare::same;
use hub_base::{Edition, Entry, Events, Fault, Journal, NoMemory, Pid, Port, Step};
use hub_core::{Hub, OpenFault, ShortHub};
use hub_cut::{Recorder, Totals, cut, cut_journal};
use std::alloc::Global;
use std::process::Abort;

/// The name of a story, and the place of a row of it.
type Place<'a> = (&'a str, usize);

const MADE_THIRD: Told = Told::Made(3);

/// Port 1 has two values, the closed port 2 has one, process 1 has gone, and process 2 waits on port 3.
const BEFORE: &[Row] = &[
    Row::Steps(0, Ask::Make(3), &[(0, MADE)]),
    Row::Steps(0, Ask::Make(1), &[(0, MADE_SECOND)]),
    Row::Steps(0, Ask::Make(0), &[(0, MADE_THIRD)]),
    Row::Steps(0, Ask::Send(1, 5), &[(0, SENT)]),
    Row::Steps(0, Ask::Send(1, 6), &[(0, SENT)]),
    Row::Steps(0, Ask::Recv(1), &[(0, Told::Got(0, 5))]),
    Row::Steps(0, Ask::Send(1, 7), &[(0, SENT)]),
    Row::Steps(0, Ask::Send(2, 8), &[(0, SENT)]),
    Row::Steps(0, Ask::Close(2), &[(0, DONE)]),
    Row::Steps(1, Ask::Exit, &[(1, DONE)]),
    Row::Steps(2, Ask::Recv(3), &[(2, PARKED)]),
];

const AFTER: &[Row] = &[
    Row::Steps(0, Ask::Recv(1), &[(0, Told::Got(0, 6))]),
    Row::Steps(0, Ask::Recv(1), &[(0, Told::Got(0, 7))]),
    Row::Steps(0, Ask::Recv(2), &[(0, Told::Got(0, 8))]),
    Row::Steps(0, Ask::Recv(2), &[(0, DRAINED)]),
    Row::Steps(0, Ask::Close(2), &[(0, CLOSED_BEFORE)]),
    Row::Steps(0, Ask::Send(3, 9), &[(0, SENT), (2, Told::Got(0, 9))]),
];

/// Makes a step, which the hub's edition must have.
fn make_step(rt: &impl Abort, hub: &mut ShortHub, entry: Entry) -> Result<Events, Fault> {
    assert!(rt; entry.fits(hub.head().edition));
    let mut events = Events::new();
    match hub.step_into(&entry.by_slice(), &mut events) {
        Ok(()) => Ok(events),
        Err(fault) => Err(fault),
    }
}

/// Makes the steps of these rows.
fn follow(rt: &impl Abort, hub: &mut ShortHub, name: &str, rows: &[Row]) {
    for (place, row) in rows.iter().enumerate() {
        if let Row::Steps(pid, asked, told) = *row {
            is_made(
                rt,
                make_step(rt, hub, entry_of(pid, asked)),
                told,
                (name, place),
            );
        }
    }
}

/// The second process has gone, and the hub answers what follows.
fn goes_on(rt: &impl Abort, hub: &mut ShortHub) {
    same(rt, hub.refusal(Pid(1)), Some(Fault::Gone), "refusal");
    follow(rt, hub, "after", AFTER);
}

/// Both hubs, of which the second has been cut, answer what follows.
fn both_go_on(rt: &impl Abort, whole: ShortHub, hub: &mut ShortHub) {
    let mut whole = whole;
    same(rt, (whole.len(), hub.len()), (11, 9), "first cut");
    goes_on(rt, &mut whole);
    goes_on(rt, hub);
}

/// The hub is cut before what follows.
fn cut_before(rt: &impl Abort, alloc: Global, hub: &mut ShortHub) {
    match cut(alloc, hub) {
        Ok(whole) => both_go_on(rt, whole, hub),
        Err(NoMemory) => same(rt, false, true, "memory for a cut"),
    }
}

/// The hub is cut behind what followed.
fn cut_behind(rt: &impl Abort, alloc: Global, hub: &mut ShortHub) {
    match cut_journal(alloc, hub) {
        Ok(journal) => has_entries(rt, journal),
        Err(NoMemory) => same(rt, false, true, "memory for a journal"),
    }
    same(rt, hub.len(), 5, "second cut");
}

fn has_entries(rt: &impl Abort, journal: Journal) {
    same(rt, journal.entries().len(), 15, "second cut");
}

fn cut_twice(rt: &impl Abort, alloc: Global, hub: ShortHub) {
    let mut hub = hub;
    follow(rt, &mut hub, "before", BEFORE);
    cut_before(rt, alloc, &mut hub);
    cut_behind(rt, alloc, &mut hub);
}

#[test]
fn cut_hub_answers_as_before(rt: HostRuntime) {
    match Hub::open(rt.alloc(), 3, 100, Edition::One) {
        Ok(hub) => cut_twice(&rt, rt.alloc(), hub.shortened()),
        Err(fault) => same(&rt, Some(fault), None, "opening"),
    }
}

/// How many entries a chapter has, if there is one.
fn len_of(chapter: Option<ShortHub>) -> Option<usize> {
    match chapter {
        Some(chapter) => Some(count(chapter)),
        None => None,
    }
}

fn count(chapter: ShortHub) -> usize {
    chapter.len()
}

/// Makes a step, and tells how many entries the chapter has that is handed out.
fn step_on(
    rt: &impl Abort,
    recorder: &mut Recorder,
    entry: &Entry,
    events: &mut Events,
) -> (Result<(), Fault>, Option<usize>) {
    assert!(rt; entry.fits(recorder.present().head().edition));
    let mut out = None;
    events.clear();
    let recorded = recorder.step_heard(&entry.by_slice(), events, &mut out);
    (recorded, len_of(out))
}

/// Makes a step of process 0, and gives how many entries the chapter has that is handed out.
fn record(
    rt: &impl Abort,
    recorder: &mut Recorder,
    asked: Ask,
    told: Told,
    place: Place,
) -> Result<Option<usize>, Fault> {
    let mut events = Events::new();
    let (recorded, handed) = step_on(rt, recorder, &entry_of(0, asked), &mut events);
    recorded?;
    are_told(rt, events.as_slice(), &[(0, told)], place);
    Ok(handed)
}

/// What a recorder shows: its counts of port 1, and how many entries the present chapter has.
fn shown_by(recorder: &Recorder) -> (Option<Totals>, usize) {
    (recorder.look(Port(1)), recorder.present().len())
}

/// Makes a step and, where memory was refused, once more. The recorder is as before then.
fn record_again(
    rt: &impl Abort,
    recorder: &mut Recorder,
    asked: Ask,
    told: Told,
    place: Place,
) -> Result<Option<usize>, Fault> {
    let before = shown_by(recorder);
    match record(rt, recorder, asked, told, place) {
        Err(Fault::NoMemory) => {
            same(rt, shown_by(recorder), before, place);
            record(rt, recorder, asked, told, place)
        }
        recorded => recorded,
    }
}

/// What happens to a recorder.
#[derive(Clone, Copy)]
enum Act {
    /// Process 0 makes a step, and is told this. A chapter of so many entries is handed out, or none.
    Step(Ask, Told, Option<usize>),
    /// It is cut, and hands out a chapter of so many entries, or none.
    Cut(Option<usize>),
    /// Whether the make of a port would begin a chapter.
    Begins(bool),
}

/// A chapter has three entries behind its checkpoint, or twice as many as that, so the fourth and the tenth step cut.
const RECORDED: &[Act] = &[
    Act::Step(Ask::Make(2), MADE, None),
    Act::Step(Ask::Send(1, 5), SENT, None),
    Act::Step(Ask::Send(1, 6), SENT, None),
    Act::Step(Ask::Recv(1), Told::Got(0, 5), None),
    Act::Step(Ask::Recv(1), Told::Got(0, 6), None),
    Act::Step(Ask::Send(1, 7), SENT, None),
    Act::Step(Ask::Recv(1), Told::Got(0, 7), None),
    Act::Step(Ask::Send(1, 8), SENT, None),
    Act::Step(Ask::Recv(1), Told::Got(0, 8), None),
    Act::Step(Ask::Send(1, 9), SENT, Some(3)),
];

/// Four values were received and one is left, in three chapters.
const CARRIED: Totals = Totals {
    cap: 2,
    len: 1,
    sent: 5,
    received: 4,
    closed: false,
};

/// A value is received in the second of two chapters that are cut before they are full.
const CUT_BY_HAND: &[Act] = &[
    Act::Step(Ask::Make(2), MADE, None),
    Act::Step(Ask::Send(1, 5), SENT, None),
    Act::Cut(None),
    Act::Step(Ask::Recv(1), Told::Got(0, 5), None),
    Act::Cut(Some(2)),
    Act::Begins(false),
];

/// How many values have come through port 1, and are in it.
const ONE_CAME_THROUGH: Totals = Totals {
    cap: 2,
    len: 0,
    sent: 1,
    received: 1,
    closed: false,
};

/// How many entries the chapter has that a cut hands out.
fn cut_off(recorder: &mut Recorder) -> Result<Option<usize>, Fault> {
    match recorder.cut() {
        Ok(chapter) => Ok(len_of(chapter)),
        Err(NoMemory) => Err(Fault::NoMemory),
    }
}

fn act_on(rt: &impl Abort, recorder: &mut Recorder, act: Act, place: Place) {
    match act {
        Act::Step(asked, told, handed) => {
            let found = record_again(rt, recorder, asked, told, place);
            same(rt, found, Ok(handed), place);
        }
        Act::Cut(handed) => same(rt, cut_off(recorder), Ok(handed), place),
        Act::Begins(begins) => same(rt, recorder.begins(&Step::Make(1)), begins, place),
    }
}

/// How many entries the chapters have that it still keeps.
fn kept(recorder: Recorder) -> (Option<usize>, usize) {
    let before = match recorder.before() {
        Some(chapter) => Some(chapter.len()),
        None => None,
    };
    (before, count_present(recorder.into_chapters()))
}

fn count_present(chapters: (Option<ShortHub>, ShortHub)) -> usize {
    chapters.1.len()
}

fn open(rt: &impl Abort, alloc: Global, limit: u32) -> Result<Recorder, OpenFault> {
    assert!(rt; 1 <= limit && limit <= 900_000);
    Recorder::open(alloc, 2, limit, Edition::One)
}

/// Opens a recorder of two processes with chapters of this limit and, where memory was refused, another.
fn open_again(rt: &impl Abort, alloc: Global, limit: u32) -> Result<Recorder, OpenFault> {
    match open(rt, alloc, limit) {
        Err(OpenFault::NoMemory) => open(rt, alloc, limit),
        recorder => recorder,
    }
}

/// What happens to a recorder: a name, its chapters' limit, what happens, the counts of port 1 in the end, and how many
/// entries the chapters have then that it keeps.
type Story<'a> = (&'a str, u32, &'a [Act], Totals, (Option<usize>, usize));

/// Has this happen. Port 2 is not made.
fn act_all(rt: &impl Abort, recorder: &mut Recorder, story: &Story) {
    let (name, _, acts, counts, _) = *story;
    for (place, act) in acts.iter().enumerate() {
        act_on(rt, recorder, *act, (name, place));
    }
    let looks = (recorder.look(Port(1)), recorder.look(Port(2)));
    same(rt, looks, (Some(counts), None), name);
}

fn tell_of(rt: &impl Abort, recorder: Recorder, story: &Story) {
    let mut recorder = recorder;
    act_all(rt, &mut recorder, story);
    same(rt, kept(recorder), story.4, story.0);
}

/// Tells the story, all of it where memory may be refused.
fn tell(rt: &impl Abort, alloc: Global, story: &Story) {
    begin(alloc);
    match open_again(rt, alloc, story.1) {
        Ok(recorder) => tell_of(rt, recorder, story),
        Err(fault) => same(rt, Some(fault), None, story.0),
    }
}

// The first chapter has three entries, the second six behind a checkpoint of three, the last one behind one of one.
#[test]
fn refused_chapters_are_begun_again(rt: HostRuntime) {
    tell(
        &rt,
        rt.alloc(),
        &("full", 3, RECORDED, CARRIED, (Some(9), 2)),
    );
}

// One value was received in two chapters that were cut before they were full, and one entry follows.
#[test]
fn recorder_is_cut_before_it_is_full(rt: HostRuntime) {
    let story = ("by hand", 100, CUT_BY_HAND, ONE_CAME_THROUGH, (Some(3), 1));
    tell(&rt, rt.alloc(), &story);
}
