//! What the threads of the tests do.

ghost use Rattle.std.specs.Prelude.{◌≡◌};

use super::Ask;
use super::rows::ask;
use hub_base::{Event, Fault, Pid, Port, What};
use hub_crew::Task;
use hub_live::{Held, HubName, LiveHub};
use std::process::Abort;
use std::sync::Wait;
use std::sync::atomic::{AtomicU32, Ordering};
use std::thread;

/// What is done with the seats of a story once its rows are.
#[derive(Clone, Copy, Debug)]
pub(crate) enum Crew {
    /// Nothing more.
    None,
    /// Nothing more. The hub is of the third edition.
    Lives,
    /// A value is sent and received, the port closed and drained, by a seat whose hub no type says.
    Plain,
    /// Process 0 sends 9 on port 1, every other receives from it.
    Pass,
    /// Each receives from the nil port, so that all stall.
    Stall,
    /// Process 0 closes port 1.
    Close,
    /// Process 1 tells that it begins, and receives from port 1; process 0 cancels its call.
    Cancel,
    /// Every other process tells that it begins, and receives from port 1; then process 0 closes it.
    CloseOnAll,
    /// Each makes a channel of the capacity that stands at the number of its process.
    MakeOwn,
    /// Process 0 makes port 1 and sends 1,000 values on it, every other looks at it as often.
    Watch,
    /// The hand-over of `hub_uses`.
    HandOver,
    /// The pool of `hub_uses`.
    WorkOff,
}

/// Of which capacity each makes a channel.
pub(crate) const CAPACITIES: [u32; 3] = [7, 8, 9];

/// What each thread of a crew does, and what its threads share.
#[derive(Clone, Copy)]
pub(crate) struct Job<'a> {
    pub crew: Crew,
    /// How many have told that they begin.
    pub begun: &'a AtomicU32,
    pub capacities: &'a [u32],
}

/// Waits until so many have told that they begin. Between two looks the processor goes to whoever wants it, so that on a
/// busy machine they have their turn too.
fn wait_for(begun: &AtomicU32, many: u32) {
    for _ in 0..10_000_000u32 {
        if begun.load(Ordering::SeqCst) >= many {
            break;
        }
        thread::yield_now();
    }
}

/// Gives the processor away so often that calls which have begun mostly wait by then.
fn let_others_wait() {
    for _ in 0..1_000u32 {
        thread::yield_now();
    }
}

/// Asks for the same so often, or until it is done; between two askings the processor goes to whoever wants it. The last
/// answer.
fn ask_often<K: HubName, R: Wait>(
    rt: &R,
    hub: &LiveHub<K>,
    seat: &mut Held<K>,
    asked: Ask,
    times: u32,
) -> Result<Event, Fault>
    ensures { seat.new.pid ≡ seat.old.pid }
{
    let mut last = Err(Fault::NotParked);
    for _ in 0..times {
        last = ask(rt, hub, seat, asked);
        if is_done(last) {
            break;
        }
        thread::yield_now();
    }
    last
}

fn is_done(answer: Result<Event, Fault>) -> bool {
    matches!(
        answer,
        Ok(Event {
            what: What::Done,
            ..
        },)
    )
}

/// How many values are sent, and how often each other looks.
const TIMES: u32 = 1000;

/// Looks at port 1 so often. At no look fewer values were sent than at the one before.
fn look_often<K: HubName>(rt: &impl Abort, hub: &LiveHub<K>, seat: &mut Held<K>)
    ensures { seat.new.pid ≡ seat.old.pid }
{
    let mut sent = 0;
    for _ in 0..TIMES {
        let now = seat.look(hub, Port(1)).map_or(0, |counts| counts.sent);
        assert!(rt; sent <= now);
        sent = now;
    }
}

impl<'a> Job<'a> {
    /// What the thread of this process asks for, where that is all that it does.
    fn asks(&self, pid: Pid) -> Option<Ask> {
        match (self.crew, pid) {
            (Crew::Pass, Pid(0)) => Some(Ask::Send(9)),
            (Crew::Pass, _) => Some(Ask::Recv),
            (Crew::Stall, _) => Some(Ask::RecvNil),
            (Crew::Close, Pid(0)) => Some(Ask::Close),
            (Crew::MakeOwn, Pid(pid)) => self
                .capacities
                .get(usize::from(pid))
                .map(|cap| Ask::Make(*cap)),
            _ => None,
        }
    }
}

/// Gives the answer to what its process asked for last; none, where it asked for nothing.
impl<'a, K: HubName, R: Wait + Abort> Task<LiveHub<K>, Held<K>, R> for Job<'a> {
    type Report = Option<Result<Event, Fault>>;

    fn perform(self, rt: &R, hub: &LiveHub<K>, seat: &mut Held<K>) -> Option<Result<Event, Fault>> {
        let pid = seat.pid();
        if let Some(asked) = self.asks(pid) {
            return Some(ask(rt, hub, seat, asked));
        }
        match (self.crew, pid) {
            (Crew::Cancel, Pid(0)) => {
                wait_for(self.begun, 1);
                // It may come before the call is open.
                let last = ask_often(rt, hub, seat, Ask::Cancel, 100_000);
                // So that nobody waits for ever.
                let _exit = seat.exit(rt, hub);
                Some(last)
            }
            (Crew::CloseOnAll, Pid(0)) => {
                wait_for(self.begun, 3);
                let_others_wait();
                Some(ask(rt, hub, seat, Ask::Close))
            }
            (Crew::Cancel | Crew::CloseOnAll, _) => {
                self.begun.fetch_add(1, Ordering::SeqCst);
                Some(ask(rt, hub, seat, Ask::Recv))
            }
            (Crew::Watch, Pid(0)) => {
                let _made = ask(rt, hub, seat, Ask::Make(1024));
                Some(ask_often(rt, hub, seat, Ask::Send(7), TIMES))
            }
            (Crew::Watch, _) => {
                look_often(rt, hub, seat);
                None
            }
            _ => None,
        }
    }
}
