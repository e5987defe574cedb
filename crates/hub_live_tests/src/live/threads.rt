//! What threads that share a hub are told, each time with a new hub.

use super::rows::Act;
use super::stories::Runtime;
use super::tasks::{CAPACITIES, Crew, Job};
use super::{Ask, DONE, DRAINED, MADE, SENT, SHUT, STALLED, Told, UNUSED, answer, entry_of};
use crate::compare::same;
use hub_base::{Counts, Entry, Event, Fault, Pid, Port, Step, What};
use hub_crew::{Member, run_crew};
use hub_live::{Held, HubName, LiveHub};
use std::process::Abort;
use std::sync::atomic::AtomicU32;
use std::test::Fail;

/// Process 0 makes an unbuffered port.
pub(super) const MAKE: &[(u8, Act)] = &[(0, Act::Asks(Ask::Make(0), MADE))];

/// Process 1 sees that port 1 is open.
pub(super) const SEEN: &[(u8, Act)] = &[
    (0, Act::Asks(Ask::Make(0), MADE)),
    (1, Act::Sees(1, Some(UNUSED))),
];

/// Each process does its part in a thread of its own, and is told what it should be. The seats.
pub(super) fn in_threads<K: HubName + Send + Sync, R: Runtime>(
    rt: &R,
    hub: &LiveHub<K>,
    seats: Vec<Held<K>>,
    crew: Crew,
) -> Result<Vec<Held<K>>, Fail> {
    let begun = AtomicU32::new(0);
    let job = Job {
        crew,
        begun: &begun,
        capacities: &CAPACITIES,
    };
    seats_of(rt, hub, run_crew(rt, rt.alloc(), hub, seats, job)?, crew)
}

/// The seats of a crew, once what each of its threads told is compared.
fn seats_of<K: HubName, R: Runtime>(
    rt: &R,
    hub: &LiveHub<K>,
    members: Vec<Member<Held<K>, Option<Result<Event, Fault>>>>,
    crew: Crew,
) -> Result<Vec<Held<K>>, Fail> {
    let mut held = Vec::new(rt.alloc());
    for member in members {
        let Member { mut seat, report } = member;
        compare(rt, hub, &mut seat, report, crew);
        held.push(seat)?;
    }
    Ok(held)
}

/// What the thread told and what its seat then sees are as they should be.
fn compare<K: HubName>(
    rt: &impl Abort,
    hub: &LiveHub<K>,
    seat: &mut Held<K>,
    report: Option<Result<Event, Fault>>,
    crew: Crew,
) {
    let pid = seat.pid();
    match crew {
        // Whose channel is which depends on the order of the threads.
        Crew::MakeOwn => same(rt, is_made(report), true, (crew, pid)),
        _ => same(rt, report, told_by(crew, pid), (crew, pid)),
    }
    if let Some(counts) = seen_by(crew, pid) {
        same(rt, seat.look(hub, Port(1)), Some(counts), (crew, pid));
    }
}

pub(super) fn is_made(report: Option<Result<Event, Fault>>) -> bool {
    matches!(
        report,
        Some(Ok(Event {
            what: What::Made(_),
            ..
        },),)
    )
}

/// What the thread of the process tells.
pub(crate) fn told_by(crew: Crew, pid: Pid) -> Option<Result<Event, Fault>> {
    let told = match (crew, pid) {
        (Crew::Pass, Pid(0)) | (Crew::Watch, Pid(0)) => SENT,
        (Crew::Pass, _) => Told::Got(9),
        (Crew::Stall, _) => STALLED,
        (Crew::Close | Crew::Cancel | Crew::CloseOnAll, Pid(0)) => DONE,
        (Crew::Cancel, _) => Told::Cancelled,
        (Crew::CloseOnAll, _) => DRAINED,
        _ => return None,
    };
    Some(answer(pid, told))
}

/// All values were sent, and wait in the buffer.
const ALL_WAIT: Counts = Counts {
    len: 1000,
    sent: 1000,
    received: 0,
    closed: false,
};

/// What the process sees of port 1 once all threads are joined, where it is looked for.
fn seen_by(crew: Crew, pid: Pid) -> Option<Counts> {
    match (crew, pid) {
        (Crew::Watch, _) => Some(ALL_WAIT),
        (Crew::Close, Pid(1)) | (Crew::CloseOnAll, _) => Some(SHUT),
        _ => None,
    }
}

/// The make stands first, and the two calls in either order.
pub(super) fn is_passed(entries: &[Entry]) -> bool {
    let make = entry_of(0, Ask::Make(0));
    let send = entry_of(0, Ask::Send(9));
    let recv = entry_of(1, Ask::Recv);
    match entries {
        [first, second, third] => {
            *first == make
                && (*second == send && *third == recv || *second == recv && *third == send)
        }
        _ => false,
    }
}

/// Three makes, each of its process's capacity.
pub(super) fn all_make_their_own(rt: &impl Abort, entries: &[Entry]) {
    for made in entries {
        same(
            rt,
            &made.step,
            &Step::Make(7 + u32::from(made.pid.0)),
            "step",
        );
    }
}
