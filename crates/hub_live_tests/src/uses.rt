//! Each use of `hub_uses`, once.

use crate::compare::same;
use crate::live::rows::Act;
use crate::live::stories::Runtime;
use crate::live::tasks::Crew;
use crate::live::threads::told_by;
use crate::live::{Ask, DONE, MADE, SENT, SHUT};
use hub_base::{Event, Fault, Pid, Port};
use hub_crew::Member;
use hub_live::{Chan, Ended, Held, HubName, LiveHub};
use hub_uses::{Pool, Work, hand_over};
use std::process::Abort;
use std::test::Fail;

/// The seats are not given back.
pub(crate) fn hand_nine_over<K: HubName + Send + Sync, R: Runtime>(
    rt: &R,
    hub: &LiveHub<K>,
    seats: Vec<Held<K>>,
) -> Result<Vec<Held<K>>, Fail> {
    let members = hand_over(rt, rt.alloc(), hub, seats, Chan::of(Port(1)))?;
    each_has_its_answer(rt, &members);
    Ok(Vec::new(rt.alloc()))
}

fn each_has_its_answer<K: HubName>(
    rt: &impl Abort,
    members: &[Member<Held<K>, Result<Event, Fault>>],
) {
    same(rt, members.len(), 2, "members");
    for member in members {
        let pid = member.seat.pid();
        same(
            rt,
            Some(member.report),
            told_by(Crew::Pass, pid),
            ("told", pid),
        );
    }
}

/// The seats are not given back.
pub(crate) fn work_off<K: HubName + Send + Sync, R: Runtime>(
    rt: &R,
    hub: &LiveHub<K>,
    seats: Vec<Held<K>>,
) -> Result<Vec<Held<K>>, Fail> {
    let pool = Pool {
        chan: Chan::of(Port(1)),
        jobs: 20,
    };
    add_jobs(rt, &pool.work_off(rt, rt.alloc(), hub, seats)?);
    Ok(Vec::new(rt.alloc()))
}

fn add_jobs<K: HubName>(rt: &impl Abort, done: &[Member<Held<K>, Result<Work, Ended>>]) {
    let (mut all, mut total) = (0u32, 0u64);
    for member in done {
        let (jobs, sum) = jobs_and_sum(rt, member.report, member.seat.pid());
        all = all.saturating_add(jobs);
        total = total.saturating_add(sum);
    }
    same(rt, (all, total), (20, 210), "jobs and their sum");
}

/// What a member of the pool did. Only process 0 hands out.
fn jobs_and_sum(rt: &impl Abort, report: Result<Work, Ended>, pid: Pid) -> (u32, u64) {
    match report {
        Ok(Work::HandedOut) => {
            same(rt, pid, Pid(0), "who hands out");
            (0, 0)
        }
        Ok(Work::Did { jobs, sum }) => (jobs, sum),
        Err(_stopped) => panic!(rt; "stopped"),
    }
}

pub(crate) const POLLING: &[(u8, Act)] = &[
    (0, Act::Makes(1, Ok(1))),
    (0, Act::Makes(1, Ok(2))),
    (0, Act::Polls(None)),
    (0, Act::Asks(Ask::Send(5), SENT)),
    (0, Act::Holds(2, 0)),
    (0, Act::Holds(1, 1)),
    (0, Act::Polls(Some(5))),
    (0, Act::Holds(1, 0)),
];

pub(crate) const SHARING: &[(u8, Act)] = &[
    (0, Act::Asks(Ask::Make(0), MADE)),
    (0, Act::Asks(Ask::Close, DONE)),
    (0, Act::Shares),
    (1, Act::Sees(1, Some(SHUT))),
];
