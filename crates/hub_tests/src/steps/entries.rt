//! Entries and events in short.

ghost use Rattle.std.specs.Prelude.{◌≡◌};
ghost use Rattle.hub_base.specs.declared.head.Edition.TheVariants.{One};
ghost use Rattle.hub_base.specs.Head.{head_of};

use crate::compare::same;
use hub_base::{
    Case, Cases, CasesExt, Edition, Entry, Event, Events, Fault, Head, Outcome, Pid, Port, Step,
    Value, What,
};
use hub_core::Hub;
use std::process::Abort;

/// What a process asks for, by the numbers of ports.
#[derive(Clone, Copy)]
pub(crate) enum Ask {
    /// A port of this capacity.
    Make(u32),
    /// A send of a number on a port.
    Send(u16, u64),
    Recv(u16),
    /// A call that receives from either of two ports.
    RecvEither(u16, u16),
    Close(u16),
    Cancel(u8),
    Start(u8),
    /// Opens a port again, with this capacity.
    Reopen(u16, u32),
    Exit,
}

/// What a process is told, by the numbers of ports, of cases and of values, since a constant table holds no `Value`.
#[derive(Clone, Copy)]
pub(crate) enum Told {
    Made(u16),
    Sent(u8),
    Got(u8, u64),
    Drained(u8),
    Closed(u8),
    Default,
    Done,
    Parked,
    Stalled,
    Fault(Fault),
    Cancelled,
}

fn call(first: Case, second: Option<Case>) -> Step {
    let mut cases = Cases::one(first);
    if let Some(case) = second {
        cases.push(case);
    }
    Step::Call {
        cases,
        default: false,
        word: 0,
    }
}

pub(crate) fn entry_of(pid: u8, asked: Ask) -> Entry {
    let step = match asked {
        Ask::Make(cap) => Step::Make(cap),
        Ask::Send(port, number) => call(Case::Send(Port(port), Value::num(number)), None),
        Ask::Recv(port) => call(Case::Recv(Port(port)), None),
        Ask::RecvEither(first, second) => {
            call(Case::Recv(Port(first)), Some(Case::Recv(Port(second))))
        }
        Ask::Close(port) => Step::Close(Port(port)),
        Ask::Cancel(other) => Step::Cancel(Pid(other)),
        Ask::Start(other) => Step::Start(Pid(other)),
        Ask::Reopen(port, cap) => Step::Reopen {
            port: Port(port),
            cap,
        },
        Ask::Exit => Step::Exit,
    };
    Entry {
        pid: Pid(pid),
        step,
    }
}

fn fired(case: u8, outcome: Outcome) -> What {
    What::Fired { case, outcome }
}

pub(crate) fn event_of(pid: u8, told: Told) -> Event {
    let what = match told {
        Told::Made(port) => What::Made(Port(port)),
        Told::Sent(case) => fired(case, Outcome::Sent),
        Told::Got(case, number) => fired(case, Outcome::Got(Value::num(number))),
        Told::Drained(case) => fired(case, Outcome::Drained),
        Told::Closed(case) => fired(case, Outcome::Closed),
        Told::Default => What::Default,
        Told::Done => What::Done,
        Told::Parked => What::Parked,
        Told::Stalled => What::Stalled,
        Told::Fault(fault) => What::Fault(fault),
        Told::Cancelled => What::Cancelled,
    };
    Event {
        pid: Pid(pid),
        what,
    }
}

pub(crate) const MADE: Told = Told::Made(1);

pub(crate) const MADE_SECOND: Told = Told::Made(2);

pub(crate) const SENT: Told = Told::Sent(0);

pub(crate) const DONE: Told = Told::Done;

pub(crate) const PARKED: Told = Told::Parked;

pub(crate) const STALLED: Told = Told::Stalled;

/// These are told, in order.
pub(crate) fn are_told(
    rt: &impl Abort,
    events: &[Event],
    told: &[(u8, Told)],
    place: (&str, usize),
) {
    same(rt, events.len(), told.len(), place);
    for (at, (pid, told)) in told.iter().enumerate() {
        same(rt, events.get(at), Some(&event_of(*pid, *told)), place);
    }
}

/// A step was not refused, and these were told of it, in order.
pub(crate) fn is_made(
    rt: &impl Abort,
    made: Result<Events, Fault>,
    told: &[(u8, Told)],
    place: (&str, usize),
) {
    match made {
        Ok(events) => are_told(rt, events.as_slice(), told, place),
        Err(fault) => same(rt, Some(fault), None, place),
    }
}

/// Makes a step, which the hub's edition must have.
pub(crate) fn make_step(rt: &impl Abort, hub: &mut Hub, entry: Entry) -> Result<Events, Fault> {
    assert!(rt; entry.fits(hub.head().edition));
    hub.step(entry)
}

/// The first edition, with so many processes.
pub(crate) fn first(procs: u8) -> Head
    ensures { result ≡ head_of One procs }
{
    Head {
        edition: Edition::One,
        procs,
    }
}
