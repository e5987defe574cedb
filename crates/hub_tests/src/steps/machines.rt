//! A machine: steps without a journal.

ghost use Rattle.std.specs.Prelude.{◌≤◌, ◌<◌, ◌+◌, ◌-◌, ◌^◌};

use super::entries::{Ask, DONE, MADE, PARKED, STALLED, Told, are_told, entry_of, first};
use crate::compare::same;
use hub_base::{Events, Fault, Pid};
use hub_core::Machine;
use std::process::Abort;

#[test]
fn refused_steps_are_told(rt: HostRuntime) {
    match Machine::new(rt.alloc(), first(2)) {
        Ok(machine) => tell_new(&rt, machine),
        Err(_) => same(&rt, false, true, "memory for a machine"),
    }
}

fn tell_new(rt: &impl Abort, machine: Machine)
    requires { machine.steps ≤ 1 }
{
    let mut machine = machine;
    tell_all(rt, &mut machine);
}

/// Process 1 waits, and asks once more; then process 0 exits.
fn tell_all(rt: &impl Abort, machine: &mut Machine)
    requires { machine.old.steps ≤ 1 }
{
    tell(rt, machine, 0, Ask::Make(3), &[(0, MADE)]);
    tell(rt, machine, 1, Ask::Recv(1), &[(1, PARKED)]);
    tell(rt, machine, 1, Ask::Make(0), BUSY);
    for (pid, fault) in [
        (0, None),
        (1, Some(Fault::Busy)),
        (2, Some(Fault::NoProcess)),
    ] {
        same(rt, machine.refusal(Pid(pid)), fault, pid);
    }
    tell(rt, machine, 0, Ask::Exit, &[(0, DONE), (1, STALLED)]);
    is_gone(rt, machine);
}

/// Process 0 has exited.
fn is_gone(rt: &impl Abort, machine: &mut Machine)
    requires { machine.old.steps < 2 ^ 32 - 1 }
{
    let refused = machine.step(&entry_of(0, Ask::Make(0)).by_slice(), &mut Events::new());
    same(rt, refused.err(), Some(Fault::Gone), "gone");
}

const BUSY: &[(u8, Told)] = &[(1, Told::Fault(Fault::Busy))];

/// The process asks the machine, and these are told of it.
fn tell(rt: &impl Abort, machine: &mut Machine, pid: u8, asked: Ask, told: &[(u8, Told)])
    requires { machine.old.steps < 2 ^ 32 - 1 }
    ensures { machine.new.steps ≤ machine.old.steps + 1 }
{
    let mut events = Events::new();
    let answered = machine.answer(&entry_of(pid, asked).by_slice(), &mut events);
    same(rt, answered.is_ok(), true, pid);
    are_told(rt, events.as_slice(), told, ("machine", usize::from(pid)));
}
