//! A value goes from one thread to another.

ghost use Rattle.std.specs.Prelude.{◌≡◌, Some, IfOk, All};
ghost use Rattle.hub_live.specs.SeatView.{reply_to};

use hub_base::{Event, Fault, Pid, Value};
use hub_crew::{Member, Task, run_crew};
use hub_live::{Chan, Held, HubName, LiveHub};
use std::alloc::{AllocError, Global};
use std::sync::Wait;
use std::thread::Threads;

#[derive(Clone, Copy)]
struct HandOver(Chan);

impl<K: HubName, R: Wait> Task<LiveHub<K>, Held<K>, R> for HandOver {
    type Report = Result<Event, Fault>;

    ghost ends = { λ task seat told. IfOk told (λ x. reply_to seat ≡ Some x) };

    fn perform(self, rt: &R, hub: &LiveHub<K>, seat: &mut Held<K>) -> Result<Event, Fault> {
        match seat.pid() {
            Pid(0) => seat.send(rt, hub, &self.0.sender(), Value::num(9)),
            _ => seat.recv(rt, hub, &self.0.receiver()),
        }
    }
}

/// Process 0 sends 9 on the channel, and process 1 receives it. Further processes would wait for ever.
pub fn hand_over<K: HubName + Send + Sync, R: Threads + Wait + Sync>(
    rt: &R,
    alloc: Global,
    hub: &LiveHub<K>,
    seats: Vec<Held<K>>,
    chan: Chan,
) -> Result<Vec<Member<Held<K>, Result<Event, Fault>>>, AllocError>
    ensures told { IfOk result (λ done.
        All (λ m. IfOk m.report (λ x. reply_to m.seat ≡ Some x)) done.items) }
{
    run_crew(rt, alloc, hub, seats, HandOver(chan))
}
