//! Marks, channels, looks, meetings, a stall and refusals, in one thread.

ghost use Rattle.std.specs.Prelude.{◌≡◌};

use super::rows::Act;
use super::{Ask, DONE, DRAINED, MADE, ONE_WAITS, SENT, SHUT, STALLED, Told, UNUSED, compare};
use crate::compare::same;
use hub_base::{Counts, Edition, Event, Fault, Pid, Port, Value};
use hub_core::OpenFault;
use hub_live::{Blank, Chan, Held, HubName, LiveHub, Seat, mark_of};
use std::alloc::Global;
use std::process::Abort;
use std::sync::Wait;

/// One value was sent and received, and the port is closed.
const USED_UP: Counts = Counts {
    len: 0,
    sent: 1,
    received: 1,
    closed: true,
};

#[test]
fn mark_of_a_drained_port(rt: HostRuntime) {
    same(&rt, mark_of(&USED_UP), 13_835_058_057_429_647_361, "mark");
}

/// How many processes, which limit, and whether a hub is refused. The processes are tested before the limit.
const OPENINGS: &[(u8, u32, Option<OpenFault>)] = &[
    (0, 1, Some(OpenFault::BadProcs)),
    (65, 0, Some(OpenFault::BadProcs)),
    (1, 0, Some(OpenFault::BadLimit)),
    (1, 1_000_001, Some(OpenFault::BadLimit)),
    (64, 1_000_001, Some(OpenFault::BadLimit)),
    (1, 1, None),
    (33, 1_000, None),
    (64, 1_000_000, None),
];

#[test]
fn openings_are_made_or_refused(rt: HostRuntime) {
    for (procs, limit, fault) in OPENINGS {
        opens(&rt, rt.alloc(), Edition::One, *procs, *limit, *fault);
        opens(&rt, rt.alloc(), Edition::Two, *procs, *limit, *fault);
    }
}

fn seats_in(opened: (Blank, Vec<Seat>)) -> usize {
    opened.1.len()
}

/// A hub is opened with a seat for each process, or refused.
fn opens(
    rt: &impl Abort,
    alloc: Global,
    edition: Edition,
    procs: u8,
    limit: u32,
    fault: Option<OpenFault>,
) {
    let opened = match Blank::open(alloc, procs, limit, edition) {
        Ok(opened) => Ok(seats_in(opened)),
        Err(fault) => Err(fault),
    };
    let wanted = match fault {
        Some(fault) => Err(fault),
        None => Ok(usize::from(procs)),
    };
    same(rt, opened, wanted, (procs, limit));
}

/// A value goes through a channel that is then closed, and drained, by a seat whose hub no type says. It is not given
/// back.
pub(super) fn drain_plainly<K: HubName, R: AllocGlobal + Wait + Abort>(
    rt: &R,
    hub: &LiveHub<K>,
    seats: Vec<Held<K>>,
) -> Vec<Held<K>> {
    let mut seats = seats;
    if let Some(held) = seats.pop() {
        drain(rt, hub, &mut held.into_seat());
    }
    seats
}

fn drain<K: HubName, R: Wait + Abort>(rt: &R, hub: &LiveHub<K>, seat: &mut Seat)
    requires { seat.old.hub ≡ K.name }
    ensures { seat.new.hub ≡ K.name }
{
    let chan = Ok(Chan::of(Port(1)));
    same(rt, hub.make_chan(rt, seat, 2), chan, "channel");
    follow_plainly(rt, hub, seat);
    same(rt, hub.look(seat, Port(1)), Some(USED_UP), "look");
    let refused = Err(Fault::BadCap);
    same(rt, hub.make_chan(rt, seat, 1025), refused, "capacity");
    compare(rt, hub.exit(rt, seat), Pid(0), DONE, "exit");
}

fn follow_plainly<K: HubName, R: Wait + Abort>(rt: &R, hub: &LiveHub<K>, seat: &mut Seat)
    requires { seat.old.hub ≡ K.name }
    ensures { seat.new.hub ≡ K.name }
{
    for (place, (asked, told)) in DRAINING.iter().enumerate() {
        let answer = ask(rt, hub, seat, *asked);
        compare(rt, answer, Pid(0), *told, ("draining", place));
    }
}

const DRAINING: [(Ask, Told); 4] = [
    (Ask::Send(7), SENT),
    (Ask::Close, DONE),
    (Ask::Recv, Told::Got(7)),
    (Ask::Recv, DRAINED),
];

/// Sends, closes, or else receives.
fn ask<K: HubName, R: Wait>(
    rt: &R,
    hub: &LiveHub<K>,
    seat: &mut Seat,
    asked: Ask,
) -> Result<Event, Fault>
    requires { seat.old.hub ≡ K.name }
    ensures { seat.new.hub ≡ K.name }
{
    let chan = Chan::of(Port(1));
    match asked {
        Ask::Send(number) => hub.send(rt, seat, &chan.sender(), Value::num(number)),
        Ask::Close => hub.close(rt, seat, &chan.sender()),
        _ => hub.recv(rt, seat, &chan.receiver()),
    }
}

/// The value that waited was received.
const RECEIVED: Counts = Counts {
    len: 0,
    sent: 1,
    received: 1,
    closed: false,
};

pub(super) const LOOKING: &[(u8, Act)] = &[
    (0, Act::Sees(1, None)),
    (0, Act::Asks(Ask::Make(1), MADE)),
    (0, Act::Asks(Ask::Send(4), SENT)),
    (0, Act::Sees(1, Some(ONE_WAITS))),
    (1, Act::Asks(Ask::Recv, Told::Got(4))),
    (1, Act::Sees(1, Some(RECEIVED))),
    (1, Act::Sees(0, None)),
    (1, Act::Sees(2, None)),
    (1, Act::Sees(65, None)),
];

pub(super) const MEETING: &[(u8, Act)] = &[
    (0, Act::Makes(0, Ok(1))),
    (1, Act::Sees(1, Some(UNUSED))),
    (0, Act::Asks(Ask::Close, DONE)),
    (0, Act::Meets),
    (1, Act::Sees(1, Some(SHUT))),
    (1, Act::Asks(Ask::Close, Told::Fault(Fault::AlreadyClosed))),
];

pub(super) const STALLING: &[(u8, Act)] = &[
    (0, Act::Asks(Ask::RecvNil, STALLED)),
    (0, Act::Asks(Ask::RecvNil, STALLED)),
    (
        0,
        Act::Asks(Ask::Make(0), Told::Refused(Fault::JournalFull)),
    ),
    (0, Act::Makes(0, Err(Fault::JournalFull))),
    (0, Act::Asks(Ask::Exit, DONE)),
    (0, Act::Asks(Ask::Exit, Told::Refused(Fault::Gone))),
];

pub(super) const SELECTING: &[(u8, Act)] = &[
    (0, Act::Makes(0, Ok(1))),
    (0, Act::Makes(1, Ok(2))),
    (0, Act::Selects(Told::Sent(1))),
    (0, Act::Selects(Told::Default)),
    (0, Act::Asks(Ask::Exit, DONE)),
];

/// The refused send of process 1 makes no entry.
pub(super) const COMING_BACK: &[(u8, Act)] = &[
    (0, Act::Makes(1, Ok(1))),
    (0, Act::Asks(Ask::Start, Told::Fault(Fault::NotGone))),
    (1, Act::Asks(Ask::Exit, DONE)),
    (1, Act::Asks(Ask::Send(7), Told::Refused(Fault::Gone))),
    (0, Act::Asks(Ask::Start, DONE)),
    (1, Act::Asks(Ask::Send(7), SENT)),
    (0, Act::Asks(Ask::Close, DONE)),
    (0, Act::Asks(Ask::Reopen(2), Told::Fault(Fault::InUse))),
    (0, Act::Asks(Ask::Recv, Told::Got(7))),
    (0, Act::Asks(Ask::Recv, DRAINED)),
    (0, Act::Asks(Ask::Reopen(2), DONE)),
    (0, Act::Sees(1, Some(RECEIVED))),
    (1, Act::Asks(Ask::Send(8), SENT)),
];
