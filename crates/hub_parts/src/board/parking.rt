//! Parking: what a call that waits does to the queues of its cases.
//!
//! First room is made in each queue, and only then the entries join. Were both done case by case, the call's own
//! entries, whose ticket is not live yet, would be cleared away as dead ones.

ghost use Rattle.std.specs.Prelude.{◌≡◌, ◌≤◌, length};
ghost use Rattle.hub_base.specs.Ready.{port_of};
ghost use Rattle.hub_parts.specs.Queues.{roomy, joined};
ghost use Rattle.hub_parts.specs.Parking.{with_line, with_case, all_roomy, all_joined, IsWithin, HasPlace, CaseFits, CanJoin};
ghost use Rattle.hub_parts.specs.Keeps.{AllMade};

use crate::{Channel, Side, Tickets, Waiter};
use hub_base::{CASE_PLACES, Case, Pid, Port};

/// Makes room in the queue of a side of a port; port 0 has none.
fn room_at(ports: &mut Vec<Channel>, tickets: &Tickets, side: Side, port: Port)
    requires { port.0 ≤ length ports.old.items }
    ensures { ports.new.items ≡ with_line (roomy tickets.now.waiting) side port ports.old.items }
{
    if port.0 == 0 {
        return;
    }
    let channel = &mut ports[port.0 as usize - 1];
    channel.room(side, tickets);
}

/// Makes room in the queue of a case.
fn room_for(ports: &mut Vec<Channel>, tickets: &Tickets, case: Case)
    requires { (port_of case).0 ≤ length ports.old.items }
    ensures { ports.new.items ≡ with_case (roomy tickets.now.waiting) ports.old.items case }
{
    match case {
        Case::Send(port, _value) => room_at(ports, tickets, Side::Send, port),
        Case::Recv(port) => room_at(ports, tickets, Side::Recv, port),
    }
}

/// Makes room in the queue of each case. Where two cases have one queue, the second time changes nothing.
#[inline(always)]
pub(crate) fn make_room(ports: &mut Vec<Channel>, tickets: &Tickets, cases: &[Case])
    requires { AllMade (length ports.old.items) cases.now }
    ensures { ports.new.items ≡ all_roomy tickets.now.waiting ports.old.items cases.now }
{
    for case in cases {
        room_for(ports, tickets, *case);
    }
}

/// Adds an entry to the queue of a side of a port; port 0 has none.
fn join_at(ports: &mut Vec<Channel>, side: Side, port: Port, waiter: Waiter)
    requires within { IsWithin (length ports.old.items) port }
    requires place { HasPlace ports.old.items side port }
    ensures { ports.new.items ≡ with_line (joined waiter) side port ports.old.items }
{
    if port.0 == 0 {
        return;
    }
    let channel = &mut ports[port.0 as usize - 1];
    channel.join(side, waiter);
}

/// Adds an entry to the queue of a case.
fn join_for(ports: &mut Vec<Channel>, case: Case, waiter: Waiter)
    requires { CaseFits ports.old.items case }
    ensures { ports.new.items ≡ with_case (joined waiter) ports.old.items case }
{
    match case {
        Case::Send(port, _value) => join_at(ports, Side::Send, port, waiter),
        Case::Recv(port) => join_at(ports, Side::Recv, port, waiter),
    }
}

/// Adds an entry for each case to its queue, in case order.
#[inline(always)]
pub(crate) fn join(ports: &mut Vec<Channel>, pid: Pid, ticket: u32, cases: &[Case])
    requires few { length cases.now ≤ CASE_PLACES }
    requires fits { CanJoin pid ticket 0 ports.old.items cases.now }
    ensures { ports.new.items ≡ all_joined pid ticket 0 ports.old.items cases.now }
{
    for (i, case) in cases.iter().enumerate() {
        let waiter = Waiter {
            pid,
            ticket,
            case: i as u8,
        };
        join_for(ports, *case, waiter);
    }
}
