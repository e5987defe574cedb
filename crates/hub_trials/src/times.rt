//! Operations a second of each workload.

ghost use Rattle.std.specs.Prelude.{◌≡◌, ◌≤◌, All, true};
ghost use Rattle.std.specs.List.{list_all};
ghost use Rattle.hub_base.specs.declared.head.Edition.{Edition};
ghost use Rattle.hub_base.specs.Head.{has_case};

use crate::beginning::hold_with_ports;
use crate::trouble::Trouble;
use crate::workload::{Role, Workload};
use hub_base::{Cases, Edition, Event, Fault, Port, Value, What};
use hub_crew::{Member, Task, run_crew};
use hub_live::{Blank, Chan, Held, HubName, LiveHub, Seat};
use std::alloc::{AllocError, Global};
use std::marker::Brand;
use std::sync::Wait;
use std::thread::Threads;
use std::time::{Clock, Duration, Instant};

/// Operations a second, over some runs.
#[derive(Clone, Copy)]
pub struct Rates {
    pub best: u64,
    pub median: u64,
}

/// A call was not answered as it is meant to be.
#[derive(Clone, Copy)]
struct Unanswered;

/// From when to when.
#[derive(Clone, Copy)]
struct Span {
    began: Instant,
    ended: Instant,
}

impl Span {
    /// From the earlier beginning to the later end.
    fn with(self, other: Span) -> Span {
        Span {
            began: self.began.min(other.began),
            ended: self.ended.max(other.ended),
        }
    }
}

/// The turns of each process of a workload.
#[derive(Clone, Copy)]
struct Turns {
    workload: Workload,
    calls: u32,
}

fn answered(answer: Result<Event, Fault>) -> Result<(), Unanswered> {
    match answer {
        Ok(
            Event {
                what: What::Fired { .. },
                ..
            },
        ) => Ok(()),
        _ => Err(Unanswered),
    }
}

fn four_receives() -> Cases
    ensures { (edition : Edition) → list_all (has_case edition) result.items ≡ true }
{
    let mut cases = Cases::new();
    cases.push(Chan::of(Port(1)).receiver().recv());
    cases.push(Chan::of(Port(2)).receiver().recv());
    cases.push(Chan::of(Port(3)).receiver().recv());
    cases.push(Chan::of(Port(4)).receiver().recv());
    cases
}

/// What the turns are taken with: the hub, and the runtime by which they wait.
#[derive(Drop)]
struct Caller<'a, K: HubName, R> {
    rt: &'a R,
    hub: &'a LiveHub<K>,
}

impl<'a, K: HubName, R: Wait> Caller<'a, K, R> {
    fn send(&self, seat: &mut Held<K>, port: Port, turn: u32) -> Result<(), Unanswered>
        ensures { seat.new.pid ≡ seat.old.pid }
    {
        let value = Value::num(u64::from(turn));
        answered(seat.send(self.rt, self.hub, &Chan::of(port).sender(), value))
    }

    fn receive(&self, seat: &mut Held<K>, port: Port) -> Result<(), Unanswered>
        ensures { seat.new.pid ≡ seat.old.pid }
    {
        answered(seat.recv(self.rt, self.hub, &Chan::of(port).receiver()))
    }

    fn select(&self, seat: &mut Held<K>, turn: u32) -> Result<(), Unanswered>
        ensures { seat.new.pid ≡ seat.old.pid }
    {
        let word = u64::from(turn);
        answered(seat.call(self.rt, self.hub, four_receives(), false, word))
    }

    fn take_turn(&self, seat: &mut Held<K>, role: Role, turn: u32) -> Result<(), Unanswered>
        ensures { seat.new.pid ≡ seat.old.pid }
    {
        match role {
            Role::Send(port) => self.send(seat, port, turn),
            Role::Receive(port) => self.receive(seat, port),
            Role::SendThenReceive(to, from) => {
                self.send(seat, to, turn)?;
                self.receive(seat, from)
            }
            Role::ReceiveThenSend(from, to) => {
                self.receive(seat, from)?;
                self.send(seat, to, turn)
            }
            Role::SelectOverFour => self.select(seat, turn),
            Role::Look(port) => seat.look(self.hub, port).map(|_| ()).ok_or(Unanswered),
        }
    }

    fn take_turns(&self, seat: &mut Held<K>, role: Role, turns: u32) -> Result<(), Unanswered>
        ensures { seat.new.pid ≡ seat.old.pid }
    {
        for turn in 0..turns {
            self.take_turn(seat, role, turn)?;
        }
        Ok(())
    }
}

/// Gives when it made its turns.
impl<K: HubName, R: Wait + Clock> Task<LiveHub<K>, Held<K>, R> for Turns {
    type Report = Result<Span, Trouble>;

    fn perform(self, rt: &R, hub: &LiveHub<K>, seat: &mut Held<K>) -> Result<Span, Trouble> {
        let role = self.workload.role(seat.pid());
        let began = Instant::now(rt);
        let turns = self.workload.turns(role, self.calls);
        let all = Caller { rt, hub }.take_turns(seat, role, turns);
        let ended = Instant::now(rt);
        // So that nobody waits for one who stopped early. It is no part of any count.
        let _ = seat.exit(rt, hub);
        all.map_err(|_| Trouble::Unanswered)?;
        Ok(Span {
            began: began?,
            ended: ended?,
        })
    }
}

fn run_named<K: HubName + Send + Sync, R: Threads + Wait + Clock + Sync>(
    rt: &R,
    alloc: Global,
    blank: Blank,
    seats: Vec<Seat>,
    turns: Turns,
) -> Result<Duration, Trouble>
    requires named { blank.name ≡ K.name }
    requires seats { All (λ s. s.hub ≡ K.name) seats.items }
{
    let hub = blank.named::<K>();
    let (seats, _) = hold_with_ports(rt, alloc, &hub, seats, turns.workload.capacities())?;
    let Ok(done) = run_crew(rt, alloc, &hub, seats, turns) else {
        return Err(Trouble::NotStarted);
    };
    let took = time_of(done.as_slice())?;
    if turns.workload.gives_its_journal() {
        Ok(took.saturating_add(finishing(rt, alloc, hub)?))
    } else {
        Ok(took)
    }
}

/// How long the hub takes to give its journal.
fn finishing<K: HubName, R: Clock>(
    rt: &R,
    alloc: Global,
    hub: LiveHub<K>,
) -> Result<Duration, Trouble> {
    let began = Instant::now(rt)?;
    let _journal = hub.finish_held(Vec::new(alloc));
    let ended = Instant::now(rt)?;
    Ok(ended.saturating_duration_since(began))
}

/// From the earliest beginning to the latest end.
fn time_of<K: HubName>(
    done: &[Member<Held<K>, Result<Span, Trouble>>],
) -> Result<Duration, Trouble> {
    let mut whole: Option<Span> = None;
    for member in done {
        let span = member.report?;
        whole = match whole {
            Some(before) => Some(before.with(span)),
            None => Some(span),
        };
    }
    match whole {
        Some(whole) => Ok(whole.ended.saturating_duration_since(whole.began)),
        None => Err(Trouble::NotStarted),
    }
}

/// The journal has just room for the calls and the ports.
fn limit_of(workload: Workload, calls: u32) -> u32 {
    calls.saturating_add(workload.capacities().len() as u32)
}

/// Operations a second of one run.
fn rate_of<R: Threads + Wait + Clock + Sync>(
    rt: &R,
    alloc: Global,
    turns: Turns,
) -> Result<u64, Trouble> {
    let Turns { workload, calls } = turns;
    let limit = limit_of(workload, calls);
    let (blank, seats) = Blank::open(alloc, workload.procs(), limit, Edition::One)?;
    let took = run_named::<Brand, R>(rt, alloc, blank, seats, turns)?;
    Ok(per_second(workload.operations(calls), took))
}

fn per_second(operations: u64, took: Duration) -> u64 {
    let nanos = u64::try_from(took.as_nanos()).unwrap_or(u64::MAX).max(1);
    operations.saturating_mul(1_000_000_000) / nanos
}

/// The rates of so many runs, each with a hub of its own.
pub fn rates_of<R: Threads + Wait + Clock + Sync>(
    rt: &R,
    alloc: Global,
    workload: Workload,
    calls: u32,
    runs: u32,
) -> Result<Rates, Trouble> {
    let turns = Turns { workload, calls };
    let mut rates = Vec::new(alloc);
    for _ in 0..runs {
        let rate = rate_of(rt, alloc, turns)?;
        rates.push(rate).map_err(AllocError::from)?;
    }
    rates.sort_unstable();
    Ok(summary(rates.as_slice()))
}

/// The best and the median of some rates in rising order.
fn summary(rates: &[u64]) -> Rates
    ensures { All (λ x. x ≤ result.best) rates.now }
{
    let best = rates.iter().copied().max().unwrap_or(0);
    let upper = rates.get(rates.len() / 2).copied().unwrap_or(best);
    let lower = rates
        .get(rates.len().saturating_sub(1) / 2)
        .copied()
        .unwrap_or(best);
    Rates {
        best,
        median: lower.saturating_add(upper) / 2,
    }
}
