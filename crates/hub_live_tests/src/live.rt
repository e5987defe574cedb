//! The live hub, in one thread and in several, and crews: what is asked, and what is told, in the short words of the tables.

use crate::compare::same;
use hub_base::{
    Case, Cases, CasesExt, Counts, Entry, Event, Fault, Outcome, Pid, Port, Step, Value, What,
};
use std::fmt::Debug;
use std::process::Abort;

mod endless;
mod following;
mod locked;
mod one_thread;
mod refusals;
pub(crate) mod rows;
pub(crate) mod stories;
mod table;
pub(crate) mod tasks;
pub(crate) mod threads;

/// What a process asks for: of port 1, where nothing else is said.
#[derive(Clone, Copy)]
pub(crate) enum Ask {
    /// A channel of this capacity.
    Make(u32),
    /// A send of this number.
    Send(u64),
    /// A receive.
    Recv,
    /// A receive from the nil port.
    RecvNil,
    /// A close.
    Close,
    /// The end of the open call of process 1.
    Cancel,
    /// That process 1, which has exited, makes steps again.
    Start,
    /// That the port is open again, with this capacity.
    Reopen(u32),
    /// Its exit.
    Exit,
}

/// What a process is told: a port that was made, or the case of its call that fired, by their numbers. No value stands in it,
/// since a constant table borrows none.
#[derive(Clone, Copy)]
pub(crate) enum Told {
    Made(u16),
    Sent(u8),
    /// Its first case received this number.
    Got(u64),
    Drained(u8),
    Default,
    Done,
    Parked,
    Stalled,
    Cancelled,
    Fault(Fault),
    /// Its step is refused.
    Refused(Fault),
}

pub(crate) const MADE: Told = Told::Made(1);

pub(crate) const SENT: Told = Told::Sent(0);

pub(crate) const DRAINED: Told = Told::Drained(0);

pub(crate) const DONE: Told = Told::Done;

pub(crate) const PARKED: Told = Told::Parked;

pub(crate) const STALLED: Told = Told::Stalled;

/// One value was sent, and waits in the buffer.
pub(crate) const ONE_WAITS: Counts = Counts {
    len: 1,
    sent: 1,
    received: 0,
    closed: false,
};

/// Nothing was sent.
pub(crate) const UNUSED: Counts = Counts {
    len: 0,
    sent: 0,
    received: 0,
    closed: false,
};

/// Nothing was sent, and the port is closed.
pub(crate) const SHUT: Counts = Counts {
    len: 0,
    sent: 0,
    received: 0,
    closed: true,
};

/// The step of a process, as an entry.
fn entry_of(pid: u8, asked: Ask) -> Entry {
    let step = match asked {
        Ask::Make(cap) => Step::Make(cap),
        Ask::Send(number) => call(Case::Send(Port(1), Value::num(number))),
        Ask::Recv => call(Case::Recv(Port(1))),
        Ask::RecvNil => call(Case::Recv(Port(0))),
        Ask::Close => Step::Close(Port(1)),
        Ask::Cancel => Step::Cancel(Pid(1)),
        Ask::Start => Step::Start(Pid(1)),
        Ask::Reopen(cap) => Step::Reopen { port: Port(1), cap },
        Ask::Exit => Step::Exit,
    };
    Entry {
        pid: Pid(pid),
        step,
    }
}

/// A call of one case.
fn call(case: Case) -> Step {
    Step::Call {
        cases: Cases::one(case),
        default: false,
        word: 0,
    }
}

fn fired(case: u8, outcome: Outcome) -> What {
    What::Fired { case, outcome }
}

/// How the step of a process is answered that is told this.
fn answer(pid: Pid, told: Told) -> Result<Event, Fault> {
    let what = match told {
        Told::Made(port) => What::Made(Port(port)),
        Told::Sent(case) => fired(case, Outcome::Sent),
        Told::Got(number) => fired(0, Outcome::Got(Value::num(number))),
        Told::Drained(case) => fired(case, Outcome::Drained),
        Told::Default => What::Default,
        Told::Done => What::Done,
        Told::Parked => What::Parked,
        Told::Stalled => What::Stalled,
        Told::Cancelled => What::Cancelled,
        Told::Fault(fault) => What::Fault(fault),
        Told::Refused(fault) => return Err(fault),
    };
    Ok(Event { pid, what })
}

/// The step of this process is answered as it is told.
fn compare(
    rt: &impl Abort,
    found: Result<Event, Fault>,
    pid: Pid,
    told: Told,
    place: impl Copy + Debug,
) {
    same(rt, found, answer(pid, told), place);
}
