//! The random calls of one thread.

ghost use Rattle.std.specs.Prelude.{◌≡◌, true};
ghost use Rattle.std.specs.List.{list_all};
ghost use Rattle.hub_base.specs.declared.head.Edition.{Edition};
ghost use Rattle.hub_base.specs.Head.{has_case};

use crate::chances::{Chances, PORTS, value_of};
use crate::pair::{Pair, Process, change_over};
use crate::trouble::Trouble;
use hub_base::{Cases, Counts, Fault, HasPid, Pid};
use hub_crew::Task;
use hub_live::{Chan, Held, HubName, LiveHub, SendPort};
use std::io;
use std::sync::Wait;
use std::time::{Clock, Duration, Instant};

/// How many steps there are for each process: with 64 of them, a few more than the journal has room for.
const CALLS: u32 = 1_600;

/// Until when a process goes on.
#[derive(Clone, Copy)]
pub struct Until {
    pub began: Instant,
    pub limit: Duration,
}

impl Until {
    /// Whether the time is up.
    pub fn is_over<R: Clock>(&self, rt: &R) -> Result<bool, io::Error> {
        Ok(self.began.elapsed(rt)? >= self.limit)
    }
}

/// Whether a look may show this after one that showed `before`: counts do not fall, and a port stays
/// made, and closed where it can't be opened again.
fn may_follow(before: Option<Counts>, now: Option<Counts>, lives: bool) -> bool {
    match (before, now) {
        (None, _) => true,
        (Some(_), None) => false,
        (Some(before), Some(now)) => {
            before.sent <= now.sent
                && before.received <= now.received
                && (now.closed || !before.closed || lives)
                && now.sent.checked_sub(now.received) == Some(now.len)
        }
    }
}

/// The random calls of one thread.
#[derive(Drop)]
struct RandomCalls {
    chances: Chances,
    until: Until,
    /// How many values it has sent, or offered to send.
    sent: u32,
    /// By port number: what its last look at the port showed.
    seen: [Option<Counts>; PORTS as usize + 1],
}

impl RandomCalls {
    /// The next call: its cases, whether it has a default, and its choice word.
    fn next_call(&mut self, pid: Pid) -> (Cases, bool, u64)
        ensures { (edition : Edition) → list_all (has_case edition) result.0.items ≡ true }
    {
        let value = value_of(pid, self.sent);
        self.sent = self.sent.wrapping_add(1);
        let cases = self.chances.cases(value);
        let default = self.chances.below(4) == 0;
        (cases, default, self.chances.word())
    }

    fn sender(&mut self) -> SendPort {
        Chan::of(self.chances.port()).sender()
    }

    fn look<K: HubName>(&mut self, hub: &LiveHub<K>, seat: &mut Held<K>) -> Result<(), Trouble> {
        let port = self.chances.port();
        let now = seat.look(hub, port);
        let place = usize::from(port.0);
        if !may_follow(self.seen[place], now, hub.head().edition.has_lives()) {
            return Err(Trouble::LookFell {
                pid: seat.pid().0,
                port: port.0,
            });
        }
        self.seen[place] = now;
        Ok(())
    }

    /// Makes a call, or now and then a close. In a hub that has lives, now and then it opens a port again, or
    /// the other process becomes the active one.
    fn step<K: HubName, R: Wait>(
        &mut self,
        rt: &R,
        hub: &LiveHub<K>,
        active: &mut Process<K>,
        other: &mut Option<Process<K>>,
    ) -> Result<(), Trouble> {
        let lives = hub.head().edition.has_lives();
        let seat = &mut active.seat;
        let answer = match (self.chances.below(4_096), other) {
            (0, _) => seat.close(rt, hub, &self.sender()),
            (1..=32, _) if lives => {
                let cap = self.chances.below(4) as u32;
                seat.reopen(rt, hub, &self.sender(), cap)
            }
            (33..=64, Some(other)) if lives => return change_over(rt, hub, active, other),
            _ => {
                let (cases, default, word) = self.next_call(seat.pid());
                seat.call(rt, hub, cases, default, word)
            }
        };
        active.keep(answer?)
    }

    /// The other process exits at first.
    fn turns<K: HubName, R: Wait + Clock>(
        &mut self,
        rt: &R,
        hub: &LiveHub<K>,
        active: &mut Process<K>,
        other: &mut Option<Process<K>>,
    ) -> Result<(), Trouble> {
        let mut turns = CALLS;
        if let Some(other) = other {
            other.exit(rt, hub)?;
            turns += CALLS;
        }
        for _ in 0..turns {
            if self.until.is_over(rt)? {
                return Ok(());
            }
            if self.chances.below(16) == 0 {
                self.look(hub, &mut active.seat)?;
            }
            self.step(rt, hub, active, other)?;
        }
        Ok(())
    }
}

/// Random calls of each thread, with a seed that the number of its first process adds to.
#[derive(Clone, Copy)]
pub struct RandomTask {
    pub seed: u64,
    pub until: Until,
}

/// Whether its calls were made until the time was up or the journal full.
impl<K: HubName, R: Wait + Clock> Task<LiveHub<K>, Pair<K>, R> for RandomTask {
    type Report = Result<(), Trouble>;

    fn perform(self, rt: &R, hub: &LiveHub<K>, pair: &mut Pair<K>) -> Result<(), Trouble> {
        let seed = self.seed.wrapping_add(u64::from(pair.pid().0));
        let mut calls = RandomCalls {
            chances: Chances::of(seed),
            until: self.until,
            sent: 0,
            seen: [None; PORTS as usize + 1],
        };
        let turns = calls.turns(rt, hub, &mut pair.active, &mut pair.other);
        // So that those who still wait are told, and the round ends.
        pair.active.exit(rt, hub)?;
        match turns {
            // All processes together ask for more than the journal has room for.
            Ok(()) | Err(Trouble::Refused(Fault::JournalFull)) => Ok(()),
            Err(trouble) => Err(trouble),
        }
    }
}
