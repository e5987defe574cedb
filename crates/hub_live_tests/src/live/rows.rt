//! What the processes of a live hub do in one thread, row by row.

ghost use Rattle.std.specs.Prelude.{◌≡◌};

use super::refusals::{allocate, begin, pass_again};
use super::stories::Story;
use super::{Ask, Told, compare};
use crate::compare::same;
use hub_base::{Cases, CasesExt, Counts, Event, Fault, Pid, Port, Value};
use hub_live::{Chan, Held, HubName, LiveHub};
use hub_uses::{poll, share, waiting};
use std::process::Abort;
use std::sync::Wait;

/// What a process does in one row.
#[derive(Clone, Copy)]
pub(crate) enum Act {
    /// It asks, and is told.
    Asks(Ask, Told),
    /// It makes a channel of this capacity, and gets that of this port.
    Makes(u32, Result<u16, Fault>),
    /// It receives from port 1 or sends 5 on port 2, if one of them can proceed, and is told.
    Selects(Told),
    /// A poll of ports 2 and 1 finds this.
    Polls(Option<u64>),
    /// It looks at the port, and sees this.
    Sees(u16, Option<Counts>),
    /// So many values wait in the port, as `waiting` tells.
    Holds(u16, u32),
    /// It meets process 1.
    Meets,
    /// It meets process 1, as `share` does.
    Shares,
    /// Allocations are refused from here on.
    Begins,
    /// It asks for memory, so that a script sees that it is refused by now.
    Allocates,
    /// It passes values, each call made again where memory was refused.
    PassesAgain,
}

/// Makes the step. A hub whose edition does not have it tells a fault that the step could have.
pub(super) fn ask<K: HubName, R: Wait>(
    rt: &R,
    hub: &LiveHub<K>,
    seat: &mut Held<K>,
    asked: Ask,
) -> Result<Event, Fault>
    ensures { seat.new.pid ≡ seat.old.pid }
{
    let chan = Chan::of(Port(1));
    match asked {
        Ask::Make(cap) => seat.make(rt, hub, cap),
        Ask::Send(number) => seat.send(rt, hub, &chan.sender(), Value::num(number)),
        Ask::Recv => seat.recv(rt, hub, &chan.receiver()),
        Ask::RecvNil => seat.recv(rt, hub, &Chan::of(Port(0)).receiver()),
        Ask::Close => seat.close(rt, hub, &chan.sender()),
        Ask::Cancel => cancel(rt, hub, seat),
        Ask::Start => start(rt, hub, seat),
        Ask::Reopen(cap) => reopen(rt, hub, seat, cap),
        Ask::Exit => seat.exit(rt, hub),
    }
}

fn cancel<K: HubName, R: Wait>(rt: &R, hub: &LiveHub<K>, seat: &mut Held<K>) -> Result<Event, Fault>
    ensures { seat.new.pid ≡ seat.old.pid }
{
    if !hub.head().edition.has_cancel() {
        return Err(Fault::NotParked);
    }
    seat.cancel(rt, hub, Pid(1))
}

fn start<K: HubName, R: Wait>(rt: &R, hub: &LiveHub<K>, seat: &mut Held<K>) -> Result<Event, Fault>
    ensures { seat.new.pid ≡ seat.old.pid }
{
    if !hub.head().edition.has_lives() {
        return Err(Fault::NotGone);
    }
    seat.start(rt, hub, Pid(1))
}

fn reopen<K: HubName, R: Wait>(
    rt: &R,
    hub: &LiveHub<K>,
    seat: &mut Held<K>,
    cap: u32,
) -> Result<Event, Fault>
    ensures { seat.new.pid ≡ seat.old.pid }
{
    if !hub.head().edition.has_lives() {
        return Err(Fault::InUse);
    }
    seat.reopen(rt, hub, &Chan::of(Port(1)).sender(), cap)
}

fn select<K: HubName, R: Wait>(
    rt: &R,
    hub: &LiveHub<K>,
    seat: &mut Held<K>,
) -> Result<Event, Fault> {
    let mut cases = Cases::one(Chan::of(Port(1)).receiver().recv());
    cases.push(Chan::of(Port(2)).sender().send(Value::num(5)));
    seat.call(rt, hub, cases, true, 0)
}

/// The port of the channel that is made.
fn make_chan<K: HubName, R: Wait>(
    rt: &R,
    hub: &LiveHub<K>,
    seat: &mut Held<K>,
    cap: u32,
) -> Result<u16, Fault> {
    Ok(seat.make_chan(rt, hub, cap)?.port().0)
}

fn poll_both<K: HubName, R: Wait>(
    rt: &R,
    hub: &LiveHub<K>,
    seat: &mut Held<K>,
) -> Result<Option<u64>, Fault> {
    let found = poll(rt, hub, seat, Chan::of(Port(2)), Chan::of(Port(1)), 0)?;
    Ok(found.and_then(Value::as_num))
}

/// The name of a story, and the place of a row of it.
type Place<'a> = (&'a str, usize);

/// What a process does by itself.
fn act_alone<K: HubName, R: AllocGlobal + Wait + Abort>(
    rt: &R,
    hub: &LiveHub<K>,
    seat: &mut Held<K>,
    act: Act,
    place: Place,
) {
    let pid = seat.pid();
    match act {
        Act::Asks(asked, told) => compare(rt, ask(rt, hub, seat, asked), pid, told, place),
        Act::Selects(told) => compare(rt, select(rt, hub, seat), pid, told, place),
        Act::Makes(cap, port) => same(rt, make_chan(rt, hub, seat, cap), port, place),
        Act::Polls(found) => same(rt, poll_both(rt, hub, seat), Ok(found), place),
        Act::Sees(port, counts) => same(rt, seat.look(hub, Port(port)), counts, place),
        Act::Holds(port, len) => same(rt, waiting(hub, seat, Chan::of(Port(port))), len, place),
        Act::PassesAgain => pass_again(rt, hub, seat),
        Act::Begins => begin(rt.alloc()),
        Act::Allocates => allocate(rt.alloc()),
        Act::Meets | Act::Shares => panic!(rt; "no other process"),
    }
}

/// Process 0 meets process 1.
fn meet<K: HubName>(rt: &impl Abort, hub: &LiveHub<K>, seats: &mut [Held<K>], act: Act) {
    assert!(rt; seats.len() == 2);
    let (first, others) = seats.split_at_mut(1);
    match (first, others, act) {
        ([first], [second], Act::Shares) => share(hub, first, second),
        ([first], [second], _) => first.meet(hub, second),
        _ => panic!(rt; "two seats"),
    }
}

/// What the process of this number does.
fn act_by<K: HubName, R: AllocGlobal + Wait + Abort>(
    rt: &R,
    hub: &LiveHub<K>,
    seats: &mut [Held<K>],
    pid: u8,
    act: Act,
    place: Place,
) {
    match seats.get_mut(usize::from(pid)) {
        Some(seat) => {
            same(rt, seat.pid(), Pid(pid), place);
            act_alone(rt, hub, seat, act, place);
        }
        None => panic!(rt; "no seat {pid}"),
    }
}

/// Does what the rows of a story say, in order.
pub(super) fn follow<K: HubName, R: AllocGlobal + Wait + Abort>(
    rt: &R,
    hub: &LiveHub<K>,
    seats: &mut [Held<K>],
    story: &Story,
) {
    for (place, (pid, act)) in story.rows.iter().enumerate() {
        match *act {
            Act::Meets | Act::Shares => meet(rt, hub, seats, *act),
            act => act_by(rt, hub, seats, *pid, act, (story.name, place)),
        }
    }
}
