//! The processes of a thread: one, or two of which one has exited while the other is active.

ghost use Rattle.std.specs.Prelude.{◌≡◌, ◌++◌, ◌∷◌, [], OnOk, true};
ghost use Rattle.hub_base.specs.Head.{has_lives};

use crate::chances::PORTS;
use crate::trouble::Trouble;
use hub_base::{Counts, Event, HasPid, Pid, Port};
use hub_live::{Held, HubName, LiveHub};
use std::alloc::{AllocError, Global};
use std::mem;
use std::sync::Wait;

/// A process: its seat, each answer that it received, and what it saw of each port in the end, in order.
#[derive(Drop)]
pub struct Process<K: HubName> {
    pub seat: Held<K>,
    pub told: Vec<Event>,
    pub looks: Vec<Option<Counts>>,
}

impl<K: HubName> Process<K> {
    fn of(alloc: Global, seat: Held<K>) -> Process<K> {
        Process {
            seat,
            told: Vec::new(alloc),
            looks: Vec::new(alloc),
        }
    }

    /// Keeps an answer.
    pub fn keep(&mut self, answer: Event) -> Result<(), Trouble>
        ensures { OnOk result (self.new.told.items ≡ self.old.told.items ++ answer ∷ []) }
    {
        match self.told.push(answer) {
            Ok(()) => Ok(()),
            Err(_) => Err(Trouble::NoMemory),
        }
    }

    pub fn exit<R: Wait>(&mut self, rt: &R, hub: &LiveHub<K>) -> Result<(), Trouble> {
        let answer = self.seat.exit(rt, hub)?;
        self.keep(answer)
    }

    /// Looks at each port.
    fn look_at_all(&mut self, hub: &LiveHub<K>) -> Result<(), AllocError> {
        for port in 0..PORTS {
            let counts = self.seat.look(hub, Port(port + 1));
            self.looks.push(counts)?;
        }
        Ok(())
    }
}

/// The processes of a thread.
#[derive(Drop)]
pub struct Pair<K: HubName> {
    /// The process that is active at first.
    first: Pid,
    pub active: Process<K>,
    /// It has exited. Hubs whose processes can't be started again have none.
    pub other: Option<Process<K>>,
}

impl<K: HubName> HasPid for Pair<K> {
    ghost pid_of = { λ pair. pair.first };

    fn pid(&self) -> Pid {
        self.first
    }
}

impl<K: HubName> Pair<K> {
    fn of(active: Process<K>) -> Pair<K> {
        Pair {
            first: active.seat.pid(),
            active,
            other: None,
        }
    }

    /// Looks at each port, as each process.
    pub fn look_at_all(&mut self, hub: &LiveHub<K>) -> Result<(), AllocError> {
        self.active.look_at_all(hub)?;
        match &mut self.other {
            Some(other) => other.look_at_all(hub),
            None => Ok(()),
        }
    }

    /// How many answers there are.
    pub fn answers(&self) -> usize {
        let others = self.other.as_ref().map_or(0, |other| other.told.len());
        self.active.told.len().saturating_add(others)
    }
}

/// The active process starts the other, and exits; the other is active from then on. Nothing is changed
/// where the start is refused.
pub fn change_over<K: HubName, R: Wait>(
    rt: &R,
    hub: &LiveHub<K>,
    active: &mut Process<K>,
    other: &mut Process<K>,
) -> Result<(), Trouble>
    requires { has_lives K.name.terms.head.edition ≡ true }
{
    let started = active.seat.start(rt, hub, other.seat.pid())?;
    // Without memory too one of them exits, so that nobody waits for it.
    let kept = active.keep(started);
    let exited = active.exit(rt, hub);
    mem::swap(active, other);
    kept.and(exited)
}

/// The processes of these seats, by two where the hub has lives.
pub fn pairs_of<K: HubName>(
    alloc: Global,
    hub: &LiveHub<K>,
    seats: Vec<Held<K>>,
) -> Result<Vec<Pair<K>>, Trouble> {
    let lives = hub.head().edition.has_lives();
    let mut pairs: Vec<Pair<K>> = Vec::new(alloc);
    for seat in seats {
        let process = Process::of(alloc, seat);
        match pairs.last_mut() {
            Some(pair) if lives && pair.other.is_none() => pair.other = Some(process),
            _ => pairs.push(Pair::of(process)).map_err(AllocError::from)?,
        }
    }
    Ok(pairs)
}
