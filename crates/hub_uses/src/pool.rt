//! A pool of workers: process 0 hands out jobs, the others do them until no more come.

ghost use Rattle.std.specs.Prelude.{◌≡◌, Some, IfOk, All};
ghost use Rattle.hub_live.specs.Values.{last_answer};
ghost use Rattle.hub_uses.specs.Told.{ended_by};

use hub_base::{Pid, Value};
use hub_crew::{Member, Task, run_crew};
use hub_live::{Chan, Ended, Held, HubName, LiveHub, RecvPort};
use std::alloc::{AllocError, Global};
use std::sync::Wait;
use std::thread::Threads;

/// So many jobs, and the channel on which process 0 hands them out.
#[derive(Clone, Copy)]
pub struct Pool {
    pub chan: Chan,
    pub jobs: u32,
}

/// What a process of a pool did.
#[derive(Clone, Copy, Debug, PartialEq, Eq)]
pub enum Work {
    /// It handed out all jobs, and closed the channel.
    HandedOut,
    /// It did so many jobs, the sum of whose numbers is this, until the channel was drained.
    Did { jobs: u32, sum: u64 },
}

/// Receives until the channel is closed and drained.
fn do_jobs<K: HubName, R: Wait>(
    rt: &R,
    hub: &LiveHub<K>,
    seat: &mut Held<K>,
    receiver: &RecvPort,
) -> Result<Work, Ended>
    ensures same { seat.new.pid ≡ seat.old.pid }
    ensures drained { IfOk result (λ w. last_answer seat.new ≡ Some (ended_by w)) }
{
    let mut jobs = 0u32;
    let mut sum = 0u64;
    for _ in rt.forever() {
        match seat.recv_value(rt, hub, receiver)? {
            Some(job) => {
                jobs = jobs.saturating_add(1);
                sum = sum.saturating_add(job.as_num().unwrap_or(0));
            }
            None => return Ok(Work::Did { jobs, sum }),
        }
    }
    unreachable!()
}

impl Pool {
    /// Sends the numbers from 1 to that of the last job, and closes the channel.
    fn hand_out<K: HubName, R: Wait>(
        self,
        rt: &R,
        hub: &LiveHub<K>,
        seat: &mut Held<K>,
    ) -> Result<Work, Ended>
        ensures same { seat.new.pid ≡ seat.old.pid }
        ensures closed { IfOk result (λ w. last_answer seat.new ≡ Some (ended_by w)) }
    {
        let sender = self.chan.sender();
        for job in 0..self.jobs {
            seat.send_value(rt, hub, &sender, Value::num(u64::from(job) + 1))?;
        }
        seat.close_port(rt, hub, &sender)?;
        Ok(Work::HandedOut)
    }

    /// Process 0 sends the jobs on the channel and closes it; the others do them. Each who did its part
    /// was told so last: that the close is done, or that the channel is drained. Who did not has made its exit.
    pub fn work_off<K: HubName + Send + Sync, R: Threads + Wait + Sync>(
        self,
        rt: &R,
        alloc: Global,
        hub: &LiveHub<K>,
        seats: Vec<Held<K>>,
    ) -> Result<Vec<Member<Held<K>, Result<Work, Ended>>>, AllocError>
        ensures told { IfOk result (λ done.
            All (λ m. IfOk m.report (λ w. last_answer m.seat ≡ Some (ended_by w))) done.items) }
    {
        run_crew(rt, alloc, hub, seats, self)
    }
}

impl<K: HubName, R: Wait> Task<LiveHub<K>, Held<K>, R> for Pool {
    type Report = Result<Work, Ended>;

    ghost ends = { λ task seat told. IfOk told (λ w. last_answer seat ≡ Some (ended_by w)) };

    fn perform(self, rt: &R, hub: &LiveHub<K>, seat: &mut Held<K>) -> Result<Work, Ended> {
        let work = match seat.pid() {
            Pid(0) => self.hand_out(rt, hub, seat),
            _ => do_jobs(rt, hub, seat, &self.chan.receiver()),
        };
        if work.is_err() {
            // Who does not do its part must leave, or those who wait for it wait for ever.
            let _ = seat.exit(rt, hub);
        }
        work
    }
}
