//! A hub that follows a journal: which steps wait for their turn, which are a divergence, and which journals are refused.

use super::{Ask, DONE, MADE, PARKED, SENT, Told, answer, entry_of};
use crate::compare::same;
use hub_base::{
    Case, Cases, CasesExt, Entry, Event, Fault, Kind, Pid, Port, Step, TextFault, Value, cases_from,
};
use hub_core::CaseRoom;
use hub_cut::ChainFault;
use hub_served::{AfterDivergence, Follower, NotMade};
use std::alloc::Global;
use std::process::Abort;
use std::test::Fail;

/// Process 1 waits for the value that process 0 sends, and then process 0 closes the port.
const JOURNAL: &[u8] = b"chanhub journal 2\nprocs 2\n0 make 0\n1 recv 1\n0 send 1 9\n0 close 1\n";

/// What happens at the hub.
#[derive(Clone, Copy)]
enum Row {
    /// The process makes a step, and is told.
    Asks(u8, Ask, Told),
    /// The step's turn has not come.
    Waits(u8, Ask),
    /// The step is a divergence from the journal's step of this number.
    Diverges(u8, Ask, u32),
    /// This answer waits for the process, and is taken.
    Takes(u8, Told),
    /// Whose step is next.
    Next(Option<Pid>),
    /// The number of the step at which it has diverged.
    Diverged(Option<u32>),
    /// The process's next step in the journal, with its number.
    StepOf(u8, Option<(u32, Ask)>),
    /// Which step was the first divergence, and whose.
    Asked(Option<(u8, Ask)>),
}

/// How the hub, whose edition must have the step, answers it.
fn ask(rt: &impl Abort, hub: &mut Follower, entry: &Entry) -> Result<Event, NotMade> {
    assert!(rt; entry.fits(hub.locked().head().edition));
    hub.step(&entry.by_slice())
}

/// How a step is answered that the hub makes or refuses.
fn told_as(pid: u8, told: Told) -> Result<Event, NotMade> {
    match answer(Pid(pid), told) {
        Ok(event) => Ok(event),
        Err(fault) => Err(NotMade::Refused(fault)),
    }
}

fn follow_row(rt: &impl Abort, hub: &mut Follower, row: Row, place: usize) {
    match row {
        Row::Asks(pid, asked, told) => {
            let found = ask(rt, hub, &entry_of(pid, asked));
            same(rt, found, told_as(pid, told), place);
        }
        Row::Waits(pid, asked) => {
            let found = ask(rt, hub, &entry_of(pid, asked));
            same(rt, found, Err(NotMade::NotYet), place);
        }
        Row::Diverges(pid, asked, number) => {
            let found = ask(rt, hub, &entry_of(pid, asked));
            same(rt, found, Err(NotMade::Diverged(number)), place);
        }
        Row::Takes(pid, told) => {
            let taken = hub.take(Pid(pid)).ok_or(Fault::NotParked);
            same(rt, taken, answer(Pid(pid), told), place);
        }
        Row::Next(pid) => same(rt, hub.next(), pid, place),
        Row::Diverged(number) => same(rt, hub.diverged(), number, place),
        Row::StepOf(pid, next) => {
            let wanted = next.map(|(number, asked)| (number, entry_of(pid, asked)));
            assert!(rt; hub.step_of(Pid(pid)) == wanted, "{place}");
        }
        Row::Asked(asked) => {
            let wanted = asked.map(|(pid, asked)| entry_of(pid, asked));
            assert!(rt; hub.asked() == wanted, "{place}");
        }
    }
}

/// Each step is made in its turn, until process 0 receives where it closed; then any step is made.
const GOES_ON: &[Row] = &[
    Row::Next(Some(Pid(0))),
    Row::Waits(1, Ask::Recv),
    Row::Asks(0, Ask::Make(0), MADE),
    Row::Next(Some(Pid(1))),
    Row::StepOf(1, Some((2, Ask::Recv))),
    Row::StepOf(0, Some((3, Ask::Send(9)))),
    Row::Waits(0, Ask::Send(9)),
    Row::Asks(1, Ask::Recv, PARKED),
    Row::Asks(1, Ask::Recv, Told::Refused(Fault::Busy)),
    Row::Asks(0, Ask::Send(9), SENT),
    Row::Takes(1, Told::Got(9)),
    Row::Waits(1, Ask::Exit),
    Row::StepOf(1, None),
    Row::Next(Some(Pid(0))),
    Row::Diverged(None),
    Row::Asked(None),
    Row::Diverges(0, Ask::Exit, 4),
    Row::Diverged(Some(4)),
    Row::Asked(Some((0, Ask::Exit))),
    Row::StepOf(0, None),
    Row::Next(None),
    Row::Asks(1, Ask::Exit, DONE),
    Row::Asks(0, Ask::Close, DONE),
];

/// The journal ends, and what follows it is a divergence. The hub then makes no step.
const ENDS: &[Row] = &[
    Row::Asks(0, Ask::Make(0), MADE),
    Row::Asks(1, Ask::Recv, PARKED),
    Row::Asks(0, Ask::Send(9), SENT),
    Row::Asks(0, Ask::Close, DONE),
    Row::Next(None),
    Row::Diverged(None),
    Row::Diverges(1, Ask::Exit, 5),
    Row::Diverges(0, Ask::Close, 5),
    Row::Asked(Some((1, Ask::Exit))),
];

/// The first step is another one.
const ENDS_AT_ONCE: &[Row] = &[
    Row::Diverges(0, Ask::Make(1), 1),
    Row::Diverges(0, Ask::Make(0), 1),
    Row::Diverges(1, Ask::Recv, 1),
];

/// Process 0 makes a step after its exit, in line 4.
const GONE: &[u8] = b"chanhub journal 2\nprocs 1\n0 exit\n0 make 1\n";

/// Line 3 is no step.
const NO_STEP: &[u8] = b"chanhub journal 2\nprocs 1\n0 makes 1\n";

fn tell(rt: &impl Abort, alloc: Global, after: AfterDivergence, rows: &[Row]) {
    match Follower::open(alloc, JOURNAL, after) {
        Ok(hub) => {
            let mut hub = hub;
            for (place, row) in rows.iter().enumerate() {
                follow_row(rt, &mut hub, *row, place);
            }
        }
        Err(fault) => same(rt, Some(fault), None, "opening"),
    }
}

/// Why a journal is not followed.
fn refusal_of(alloc: Global, text: &[u8]) -> Option<ChainFault> {
    match Follower::open(alloc, text, AfterDivergence::Ends) {
        Ok(_hub) => None,
        Err(fault) => Some(fault),
    }
}

#[test]
fn journals_are_followed(rt: HostRuntime) {
    tell(&rt, rt.alloc(), AfterDivergence::GoesOn, GOES_ON);
    tell(&rt, rt.alloc(), AfterDivergence::Ends, ENDS);
    tell(&rt, rt.alloc(), AfterDivergence::Ends, ENDS_AT_ONCE);
    let gone = ChainFault::NotAdmitted {
        line: 4,
        fault: Fault::Gone,
    };
    same(&rt, refusal_of(rt.alloc(), GONE), Some(gone), "gone");
    let no_step = ChainFault::Text(TextFault {
        line: 3,
        kind: Kind::BadStep,
    });
    same(
        &rt,
        refusal_of(rt.alloc(), NO_STEP),
        Some(no_step),
        "no step",
    );
}

/// Both sends of the first select could be made, and its word chooses the second. The next two calls have one case.
const CHOICES: &[u8] =
    b"chanhub journal 1\nprocs 1\n0 make 4\n0 select 3 s1:7 s1:8\n0 select 6 s1:5\n0 send 1 9\n";

/// A send of this number.
fn send(number: u64) -> Case {
    Case::Send(Port(1), Value::num(number))
}

/// A call of process 0.
fn select(cases: Cases, default: bool, word: u64) -> Entry {
    Entry {
        pid: Pid(0),
        step: Step::Call {
            cases,
            default,
            word,
        },
    }
}

/// A hub that follows those choices, and has made the port.
fn choosing(rt: &impl Abort, alloc: Global) -> Result<Follower, ChainFault> {
    let mut hub = Follower::open(alloc, CHOICES, AfterDivergence::Ends)?;
    let made = ask(rt, &mut hub, &entry_of(0, Ask::Make(4)));
    same(rt, made, told_as(0, MADE), "make");
    Ok(hub)
}

/// The call that stands here in the hub's journal has this choice word.
fn has_word(rt: &impl Abort, hub: &Follower, place: usize, wanted: u64) {
    let mut room = CaseRoom::new();
    let found = match hub.locked().entry(place, &mut room) {
        Some(
            Entry {
                pid: _,
                step: Step::Call { word, .. },
            },
        ) => Some(word),
        _ => None,
    };
    same(rt, found, Some(wanted), place);
}

#[test]
fn a_select_is_made_with_the_choice_word_of_the_journal(rt: HostRuntime) -> Result<(), Fail> {
    let mut hub = choosing(&rt, rt.alloc())?;
    let two = select(cases_from(&[send(7), send(8)]), false, 2);
    same(&rt, ask(&rt, &mut hub, &two), told_as(0, Told::Sent(1)), 1);
    let plain = entry_of(0, Ask::Send(5));
    same(&rt, ask(&rt, &mut hub, &plain), told_as(0, SENT), 2);
    let worded = select(Cases::one(send(9)), false, 4);
    same(&rt, ask(&rt, &mut hub, &worded), told_as(0, SENT), 3);
    has_word(&rt, &hub, 1, 3);
    has_word(&rt, &hub, 2, 6);
    has_word(&rt, &hub, 3, 0);
    same(&rt, hub.diverged(), None, "diverged");
    Ok(())
}

#[test]
fn another_case_or_default_is_a_divergence(rt: HostRuntime) -> Result<(), Fail> {
    let mut hub = choosing(&rt, rt.alloc())?;
    let other_case = select(cases_from(&[send(7), send(9)]), false, 3);
    let told = ask(&rt, &mut hub, &other_case);
    same(&rt, told, Err(NotMade::Diverged(2)), "case");
    let mut hub = choosing(&rt, rt.alloc())?;
    let with_default = select(cases_from(&[send(7), send(8)]), true, 3);
    let told = ask(&rt, &mut hub, &with_default);
    same(&rt, told, Err(NotMade::Diverged(2)), "default");
    Ok(())
}

/// Process 1 is the clock: it waits first, is woken before process 0 waits, and then waits again.
const WITH_CLOCK: &[u8] = b"chanhub journal 2\nprocs 2\n1 recv 0\n0 make 0\n0 select 0 r1 default\n\
    0 cancel 1\n0 recv 1\n1 cancel 0\n1 recv 0\n0 exit\n1 exit\n";

#[test]
fn the_clock_of_a_journal_is_known(rt: HostRuntime) -> Result<(), Fail> {
    let timed = Follower::open(rt.alloc(), WITH_CLOCK, AfterDivergence::Ends)?;
    same(&rt, timed.clock(), Some(Pid(1)), "a clock");
    let untimed = Follower::open(rt.alloc(), JOURNAL, AfterDivergence::Ends)?;
    same(&rt, untimed.clock(), None, "none");
    let first = untimed.given(0);
    same(&rt, first.map(|entry| entry.pid), Some(Pid(0)), "entry 0");
    Ok(())
}
