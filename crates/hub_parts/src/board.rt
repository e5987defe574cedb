//! The board: the ports and the open calls.
//!
//! In each queue of each port the live entries are the cases of the open calls on that side of that port: by
//! ticket, and in one call in case order. Tickets rise along the list of open calls. Every entry's ticket, a dead
//! one's too, is below the least that may come next, so a dead entry never becomes live. A queue has `PLACES`
//! places for each process, and no process has more than one open call, of at most `CASE_PLACES` cases: so the
//! live entries leave room for one call more.

ghost use Rattle.std.specs.Prelude.{◌≡◌, ◌≤◌, ◌<◌, ◌+◌, ◌*◌, [], length, IfOk, IfSome, OnErr, OnOk, IsTrue, ◌↔◌, ◌==◌, true, false, slice_get, is_some};
ghost use Rattle.std.specs.Option.{option_map};
ghost use Rattle.std.specs.List.{list_any};
ghost use Rattle.hub_base.specs.Ready.{first_with, is_on};
ghost use Rattle.hub_parts.specs.Lists.{open_calls, parked, with_new, new_port, IsMade, port_at, with_port, pushed, popped, closed_now, passes, ending_of, after_taking, after_stop, ended_by, opened, shown_call};
ghost use Rattle.hub_parts.specs.Keeps.{AllMade};
ghost use Rattle.hub_parts.specs.Shapes.{HaveOneShape, IsShapeOf, caps_of};
ghost use Rattle.hub_parts.specs.declared.wait_queue.TheConstants.{PLACES};

mod parking;

use crate::{Channel, Ended, Side, Tickets};
use hub_base::{CASE_PLACES, Case, CaseSlice, Cases, MOST_PORTS, NoMemory, Pid, Port, Value};
use parking::{join, make_room};
use std::alloc::{AllocError, Global};
use std::marker::Model;

/// The ports of a hub and its open calls.
///
/// A contract sees lists: of each port its capacity, whether it is closed, and its buffer; the open calls under
/// their tickets, oldest first; and the least ticket that may come next. Only `new` and `make` take memory.
#[derive(Drop)]
pub struct Board {
    /// The channels, in order of their ports from 1.
    ports: Vec<Channel>,
    /// The calls that wait.
    calls: Tickets,
}

impl Model for Board {
    ghost use Rattle.hub_parts.specs.Records.{Lists};

    ghost Value = { Lists };

    ghost use Rattle.hub_parts.specs.Keeps.{BoardKeeps, board_lists};

    ghost view = { λ b. board_lists b.calls b.ports.items };

    ghost invariant = { λ b. BoardKeeps b.calls b.ports.items };
}

/// The same channels, in the same order.
fn copy_channels(alloc: Global, channels: &[Channel]) -> Result<Vec<Channel>, AllocError>
    ensures { IfOk result (λ v. v.items ≡ channels.now) }
{
    let mut copy = Vec::with_capacity(alloc, channels.len())?;
    for channel in channels {
        copy.push(channel.copy(alloc)?)?;
    }
    Ok(copy)
}

/// Whether these channels have the capacities of those, in order.
fn have_caps_of(channels: &[Channel], others: &[Channel]) -> bool
    ensures { IsTrue result ↔ (caps_of channels.now ≡ caps_of others.now) }
{
    if channels.len() != others.len() {
        return false;
    }
    for place in 0..others.len() {
        if channels[place].cap() != others[place].cap() {
            return false;
        }
    }
    true
}

/// Makes these channels the same in all as those, each of which has as much room as the one in its place.
fn copy_channels_over(channels: &mut [Channel], others: &[Channel])
    requires { HaveOneShape channels.old others.now }
    ensures { channels.new ≡ others.now }
{
    for place in 0..others.len() {
        channels[place].copy_from(&others[place]);
    }
}

impl Board {
    /// A board without ports and open calls. It takes the memory for an open call of each process.
    pub fn new(alloc: Global, procs: u8) -> Result<Board, NoMemory>
        ensures { IfOk result (λ b. b ≡ opened procs) }
    {
        Ok(Board {
            ports: Vec::new(alloc),
            calls: Tickets::new(alloc, procs)?,
        })
    }

    /// A board with the same ports and the same open calls, which takes as much memory.
    pub fn copy(&self, alloc: Global) -> Result<Board, NoMemory>
        ensures { IfOk result (λ b. b ≡ self.now) }
    {
        Ok(Board {
            ports: copy_channels(alloc, &self.ports)?,
            calls: self.calls.copy(alloc)?,
        })
    }

    /// Whether it has as many processes as another, and ports of the same capacities.
    pub fn has_shape_of(&self, other: &Board) -> bool
        ensures { IsTrue result ↔ IsShapeOf self.now other.now }
    {
        self.calls.procs() == other.calls.procs() && have_caps_of(&self.ports, &other.ports)
    }

    /// Takes what is buffered and closed, and who waits, from another of its shape. It takes no memory.
    pub fn copy_from(&mut self, other: &Board)
        requires { IsShapeOf self.old other.now }
        ensures { self.new ≡ other.now }
    {
        copy_channels_over(&mut self.ports, &other.ports);
        self.calls.copy_from(&other.calls);
    }

    /// Makes the next port, empty and open. It takes all the memory that the port will ever need; after an error
    /// the board is as before. Go: "Making slices, maps and channels".
    pub fn make(&mut self, cap: u32) -> Result<Port, NoMemory>
        requires { length self.old.ports < MOST_PORTS }
        ensures made { IfOk result (λ p. (p.0 ≡ length self.old.ports + 1) × (self.new ≡ with_new cap self.old)) }
        ensures err { OnErr result (self.new ≡ self.old) }
    {
        let port = Port(self.ports.len() as u16 + 1);
        let channel = Channel::make(*self.ports.allocator(), cap, self.calls.procs())?;
        let Ok(()) = self.ports.push(channel) else {
            return Err(NoMemory);
        };
        Ok(port)
    }

    /// How many ports were made. They are numbered from 1.
    pub fn ports(&self) -> usize
        ensures { result ≡ length self.now.ports }
    {
        self.ports.len()
    }

    /// Opens a call, the newest, which waits on all of its cases. A case on port 0 is never served.
    pub fn park(&mut self, pid: Pid, ticket: u32, cases: &CaseSlice<'_>)
        requires below { pid.0 < self.old.procs }
        requires free { list_any (λ w. w.call.pid.0 == pid.0) self.old.waiting ≡ false }
        requires made { AllMade (length self.old.ports) cases.now.items }
        requires later { self.old.next_ticket ≤ ticket }
        ensures { self.new ≡ parked pid ticket cases.now.items self.old }
    {
        // Most calls have one case. Where the list is known to be of one, no loop over it is left in the program.
        let list = cases.as_slice();
        if list.len() == 1 {
            let case = list[0];
            self.park_on(pid, ticket, &CaseSlice::one(&case));
        } else {
            self.park_on(pid, ticket, cases);
        }
    }

    /// The same, written out for each way that its cases are known.
    #[inline(always)]
    fn park_on(&mut self, pid: Pid, ticket: u32, cases: &CaseSlice<'_>)
        requires below { pid.0 < self.old.procs }
        requires free { list_any (λ w. w.call.pid.0 == pid.0) self.old.waiting ≡ false }
        requires made { AllMade (length self.old.ports) cases.now.items }
        requires later { self.old.next_ticket ≤ ticket }
        ensures { self.new ≡ parked pid ticket cases.now.items self.old }
    {
        let list = cases.as_slice();
        make_room(&mut self.ports, &self.calls, list);
        join(&mut self.ports, pid, ticket, list);
        self.calls.open(pid, ticket, cases);
    }

    /// Whether some open call has a case on this side of the port. It looks at no call and no queue.
    pub fn waiting(&self, port: Port, side: Side) -> bool
        requires { IsMade self.now port }
        ensures { result ≡ is_some (first_with (passes port side) (open_calls self.now.waiting)) }
    {
        self.calls.waits(port, side)
    }

    /// Whether the port is closed.
    pub fn closed(&self, port: Port) -> bool
        requires { IsMade self.now port }
        ensures { result ≡ (port_at self.now port).closed }
    {
        self.ports[port.0 as usize - 1].is_closed()
    }

    /// How many values the port's buffer can hold.
    pub fn cap(&self, port: Port) -> u32
        requires { IsMade self.now port }
        ensures { result ≡ (port_at self.now port).cap }
    {
        self.ports[port.0 as usize - 1].cap()
    }

    /// How many values the port's buffer holds.
    pub fn len(&self, port: Port) -> usize
        requires { IsMade self.now port }
        ensures len { result ≡ length (port_at self.now port).buffer }
    {
        self.ports[port.0 as usize - 1].len()
    }

    /// The value at this place of the port's buffer, counted from the oldest.
    pub fn item(&self, port: Port, i: usize) -> Option<Value>
        requires { IsMade self.now port }
        ensures { result ≡ slice_get (port_at self.now port).buffer i }
    {
        self.ports[port.0 as usize - 1].item(i)
    }

    /// Adds the newest value to the port's buffer. There must be room.
    pub fn push(&mut self, port: Port, value: &Value)
        requires made { IsMade self.old port }
        requires room { length (port_at self.old port).buffer < (port_at self.old port).cap }
        ensures { self.new ≡ with_port self.old port (pushed value.now (port_at self.old port)) }
    {
        let channel = &mut self.ports[port.0 as usize - 1];
        channel.push(value);
    }

    /// Removes and gives the oldest value of the port's buffer.
    #[inline(always)]
    pub fn pop(&mut self, port: Port) -> Option<Value>
        requires { IsMade self.old port }
        ensures oldest { result ≡ slice_get (port_at self.old port).buffer 0 }
        ensures left { self.new ≡ with_port self.old port (popped (port_at self.old port)) }
    {
        let channel = &mut self.ports[port.0 as usize - 1];
        channel.pop()
    }

    /// Closes the port. What is buffered and who waits there stays. Go: "Close".
    pub fn shut(&mut self, port: Port)
        requires { IsMade self.old port }
        ensures { self.new ≡ with_port self.old port (closed_now (port_at self.old port)) }
    {
        let channel = &mut self.ports[port.0 as usize - 1];
        channel.shut();
    }

    /// Opens a port again, with this capacity and an empty buffer. The calls that wait there still wait. A buffer of the
    /// same capacity stays where it is; another takes all the memory that it will ever need. After an error the board is as
    /// before.
    pub fn reopen(&mut self, port: Port, cap: u32) -> Result<(), NoMemory>
        requires { IsMade self.old port }
        ensures ok { OnOk result (self.new ≡ with_port self.old port (new_port cap)) }
        ensures err { OnErr result (self.new ≡ self.old) }
    {
        let alloc = *self.ports.allocator();
        let channel = &mut self.ports[port.0 as usize - 1];
        channel.reopen(alloc, cap)?;
        Ok(())
    }

    /// Ends the oldest open call with a case on this side of the port, at its lowest such case. The call leaves
    /// the queues of all its cases.
    #[inline(always)]
    pub fn take(&mut self, port: Port, side: Side) -> Option<Ended>
        requires { IsMade self.old port }
        ensures taken { option_map ending_of result ≡ first_with (passes port side) (open_calls self.old.waiting) }
        ensures side { IfSome result (λ e. passes port side e.case ≡ true) }
        ensures left { self.new ≡ after_taking result self.old }
    {
        let channel = &mut self.ports[port.0 as usize - 1];
        let waiter = channel.take(side, &self.calls)?;
        let Some(case) = self.calls.case(waiter) else {
            unreachable!();
        };
        self.calls.end(waiter.pid);
        Some(Ended {
            pid: waiter.pid,
            index: waiter.case,
            case,
        })
    }

    /// Ends the oldest open call with a case on either side of the port, at its lowest such case. The call leaves the
    /// queues of all its cases.
    pub fn take_either(&mut self, port: Port) -> Option<Ended>
        requires { IsMade self.old port }
        ensures taken { option_map ending_of result ≡ first_with (is_on port) (open_calls self.old.waiting) }
        ensures port { IfSome result (λ e. is_on port e.case ≡ true) }
        ensures left { self.new ≡ after_taking result self.old }
    {
        // Each look at both queues passes their dead entries anew, and a taking removes those of one queue alone. Removed
        // here, each is passed once, however many calls are then taken.
        self.pass_dead(port, Side::Send);
        self.pass_dead(port, Side::Recv);
        let side = self.older_side(port);
        self.take(port, side)
    }

    /// Removes the dead entries before the oldest live one of a queue of the port. No list of the board changes.
    fn pass_dead(&mut self, port: Port, side: Side)
        requires { IsMade self.old port }
        ensures { self.new ≡ self.old }
    {
        let channel = &mut self.ports[port.0 as usize - 1];
        channel.pass_dead(side, &self.calls);
    }

    /// The side of the port whose oldest open call is the oldest on the port.
    fn older_side(&self, port: Port) -> Side
        requires { IsMade self.now port }
        ensures { first_with (passes port result) (open_calls self.now.waiting) ≡ first_with (is_on port) (open_calls self.now.waiting) }
    {
        self.ports[port.0 as usize - 1].older_side(&self.calls)
    }

    /// How many entries the queue of a side of the port stores, the dead ones among them.
    /// The lists of a board leave the queues out, so no contract says how many it is after a call.
    pub fn stored(&self, port: Port, side: Side) -> u32
        requires { IsMade self.now port }
        ensures { result ≤ PLACES * self.now.procs }
    {
        self.ports[port.0 as usize - 1].stored(side)
    }

    /// Ends the oldest open call, on whatever ports. The call leaves the queues of all its cases.
    pub fn stop(&mut self) -> Option<Pid>
        ensures oldest { result ≡ option_map (λ w. w.call.pid) (slice_get self.old.waiting 0) }
        ensures left { self.new ≡ after_stop result self.old }
    {
        let oldest = self.calls.oldest()?;
        self.calls.end(oldest);
        Some(oldest)
    }

    /// Ends the open call of this process, on whatever ports. The call leaves the queues of all its cases, and no
    /// port changes. It takes no memory. It stands apart, since it is rare, and a machine's step is one function
    /// that is shorter without it.
    #[inline(never)]
    pub fn withdraw(&mut self, pid: Pid)
        requires { list_any (λ w. w.call.pid.0 == pid.0) self.old.waiting ≡ true }
        ensures { self.new ≡ ended_by pid self.old }
    {
        self.calls.end(pid);
    }

    /// Whether the process has an open call.
    pub fn open(&self, pid: Pid) -> bool
        ensures { result ≡ list_any (λ w. w.call.pid.0 == pid.0) self.now.waiting }
    {
        self.calls.is_open(pid)
    }

    /// The open call at this place, counted from the oldest: whose it is, and its cases. `None` behind the newest.
    pub fn call(&self, place: usize) -> Option<(Pid, Cases)>
        ensures { option_map shown_call result ≡ option_map (λ w. w.call) (slice_get self.now.waiting place) }
    {
        self.calls.at(place)
    }

    /// How many open calls there are, at most one of each process.
    pub fn open_count(&self) -> u8
        ensures count { result ≡ length self.now.waiting }
        ensures fits { result ≤ self.now.procs }
    {
        self.calls.count()
    }
}
