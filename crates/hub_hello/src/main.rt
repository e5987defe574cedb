//! A whole program over the live hub. Process 0 sends a number to process 1, each in a thread of its own.
#![tactic(auto)]

ghost use Rattle.std.specs.Prelude.{◌≡◌, All};

use hub_base::{Edition, Pid, Value};
use hub_crew::{Task, run_crew};
use hub_live::{Blank, Chan, Ended, Held, HubName, LiveHub, Seat, hold_all};
use std::marker::Brand;
use std::process::ExitCode;
use std::sync::Wait;
use std::thread::Threads;

/// What the processes do over this channel.
#[derive(Clone, Copy)]
struct Hello(Chan);

impl<K: HubName, R: Wait> Task<LiveHub<K>, Held<K>, R> for Hello {
    type Report = Result<Option<u64>, Ended>;

    fn perform(self, rt: &R, hub: &LiveHub<K>, seat: &mut Held<K>) -> Result<Option<u64>, Ended> {
        if seat.pid() == Pid(0) {
            seat.send_value(rt, hub, &self.0.sender(), Value::num(9))?;
            return Ok(None);
        }
        let got = seat.recv_value(rt, hub, &self.0.receiver())?;
        Ok(got.and_then(Value::as_num))
    }
}

/// Runs both processes, and prints what each reports. `None` where memory, a thread or a step was refused.
fn run<K: HubName + Send + Sync, R: Threads + Wait + Print + AllocGlobal + Sync>(
    rt: &R,
    blank: Blank,
    seats: Vec<Seat>,
) -> Option<()>
    requires named { blank.name ≡ K.name }
    requires seats { All (λ s. s.hub ≡ K.name) seats.items }
{
    let hub = blank.named::<K>();
    let mut seats = hold_all::<K>(rt.alloc(), seats).ok()?;
    let chan = seats.first_mut()?.make_chan(rt, &hub, 1).ok()?;
    for member in run_crew(rt, rt.alloc(), &hub, seats, Hello(chan)).ok()? {
        println!(rt; "process {}: {:?}", member.seat.pid().0, member.report).ok()?;
    }
    Some(())
}

fn main(rt: HostRuntime) -> ExitCode {
    let Ok((blank, seats)) = Blank::open(rt.alloc(), 2, 100, Edition::One) else {
        return ExitCode::FAILURE;
    };
    run::<Brand, _>(&rt, blank, seats).map_or(ExitCode::FAILURE, |()| ExitCode::SUCCESS)
}
