//! How a case fires: the caller is told, and then the waiting call that ended with it. Go: "Send statements", "Receive operator".

ghost use Rattle.std.specs.Prelude.{IfOk, ◌≡◌, ◌<◌, ◌∷◌, [], true};
ghost use Rattle.hub_parts.specs.declared.side.Side.TheVariants as side;
ghost use Rattle.hub_core.specs.Prelude.{ending_of, fired, passes};
ghost use Rattle.hub_parts.specs.Shapes.{IsShapeOf};
ghost use Rattle.hub_core.specs.ListReady.{SendFits, can_on};
ghost use Rattle.hub_core.specs.ListKeeps.{PortsKeep, MayFire, IsNamed};
ghost use Rattle.hub_core.specs.Hearing.{Heard};
ghost use Rattle.hub_core.specs.ListFirings.{Fires, HearsFiring, send_on, take_on, let_in, recv_on, fire_on};

use crate::tally::{Carried, Tallies};
use hub_base::{Case, Event, Hears, NoMemory, Outcome, Pid, Port, Value, What};
use hub_parts::{Board, Ended, Side};
use std::alloc::Global;

/// Whose case fires.
#[derive(Clone, Copy)]
pub(crate) struct Caller {
    /// The process whose call it is.
    pub(crate) pid: Pid,
    /// The number of the case in the call.
    pub(crate) index: u8,
}

/// Tells a process how its case ended.
#[inline(always)]
fn tell<E: Hears>(events: &mut E, pid: Pid, case: u8, outcome: Outcome)
    requires { 0 < E.room events.old }
    ensures { Heard E.heard E.room events.old events.new (fired pid case outcome ∷ []) }
{
    events.hear(Event {
        pid,
        what: What::Fired { case, outcome },
    });
}

/// A board whose ports count their values.
#[derive(Drop)]
pub(crate) struct CountedBoard {
    /// The buffers, and the calls that wait.
    pub(crate) board: Board,
    /// How many values were sent and received on each port.
    pub(crate) tallies: Tallies,
}

impl CountedBoard {
    /// Takes all from another of its shape. It takes no memory.
    pub(crate) fn copy_from(&mut self, other: &CountedBoard)
        requires { IsShapeOf self.old.board other.now.board }
        ensures { self.new ≡ other.now }
    {
        self.board.copy_from(&other.board);
        self.tallies.copy_from(&other.tallies);
    }

    /// The same, which takes as much memory.
    pub(crate) fn copy(&self, alloc: Global) -> Result<CountedBoard, NoMemory>
        ensures { IfOk result (λ b. b ≡ self.now) }
    {
        Ok(CountedBoard {
            board: self.board.copy(alloc)?,
            tallies: self.tallies.copy(),
        })
    }

    /// A send that can proceed: to the oldest receiver that waits, or else into the buffer.
    #[inline(always)]
    fn send<E: Hears>(&mut self, events: &mut E, caller: Caller, port: Port, value: &Value)
        requires may { MayFire self.old.board self.old.tallies port (E.room events.old) }
        requires can { SendFits self.old.board port }
        ensures fires { Fires self.new.board self.new.tallies (send_on self.old.board self.old.tallies port value.now) }
        ensures told { HearsFiring E.heard E.room events.old events.new caller (send_on self.old.board self.old.tallies port value.now) }
    {
        if self.board.closed(port) {
            tell(events, caller.pid, caller.index, Outcome::Closed);
            return;
        }
        // A receiver waits only where nothing is buffered, so no older value is passed over.
        match self.board.take(port, Side::Recv) {
            Some(receiver) => {
                self.tallies.count(port, Carried::Handed);
                tell(events, caller.pid, caller.index, Outcome::Sent);
                tell(events, receiver.pid, receiver.index, Outcome::Got(*value));
            }
            None => {
                self.board.push(port, value);
                self.tallies.count(port, Carried::Sent);
                tell(events, caller.pid, caller.index, Outcome::Sent);
            }
        }
    }

    /// A receive from a sender that waits, whose call has ended. Its value comes in behind those in the buffer.
    #[inline(always)]
    fn let_in<E: Hears>(&mut self, events: &mut E, caller: Caller, port: Port, sender: &Ended)
        requires may { MayFire self.old.board self.old.tallies port (E.room events.old) }
        requires sends { passes port side.Send sender.now.case ≡ true }
        ensures fires { Fires self.new.board self.new.tallies
            (let_in self.old.board self.old.tallies port (ending_of sender.now) sender.now.case) }
        ensures told { HearsFiring E.heard E.room events.old events.new caller
            (let_in self.old.board self.old.tallies port (ending_of sender.now) sender.now.case) }
    {
        let Case::Send(_port, sent) = &sender.case else {
            unreachable!();
        };
        self.tallies.count(port, Carried::Handed);
        // A sender waits only where the buffer is full, or where there is none: its value takes the place of the oldest.
        match self.board.pop(port) {
            Some(oldest) => {
                self.board.push(port, sent);
                tell(events, caller.pid, caller.index, Outcome::Got(oldest));
                tell(events, sender.pid, sender.index, Outcome::Sent);
            }
            None => {
                tell(events, caller.pid, caller.index, Outcome::Got(*sent));
                tell(events, sender.pid, sender.index, Outcome::Sent);
            }
        }
    }

    /// The oldest value of the buffer, where no sender waits.
    #[inline(always)]
    fn take_value<E: Hears>(&mut self, events: &mut E, caller: Caller, port: Port)
        requires { MayFire self.old.board self.old.tallies port (E.room events.old) }
        ensures fires { Fires self.new.board self.new.tallies (take_on self.old.board self.old.tallies port) }
        ensures told { HearsFiring E.heard E.room events.old events.new caller (take_on self.old.board self.old.tallies port) }
    {
        match self.board.pop(port) {
            Some(value) => {
                self.tallies.count(port, Carried::Received);
                tell(events, caller.pid, caller.index, Outcome::Got(value));
            }
            None => tell(events, caller.pid, caller.index, Outcome::Drained),
        }
    }

    /// A receive: from the oldest sender that waits, or else from the buffer.
    #[inline(always)]
    fn receive<E: Hears>(&mut self, events: &mut E, caller: Caller, port: Port)
        requires { MayFire self.old.board self.old.tallies port (E.room events.old) }
        ensures fires { Fires self.new.board self.new.tallies (recv_on self.old.board self.old.tallies port) }
        ensures told { HearsFiring E.heard E.room events.old events.new caller (recv_on self.old.board self.old.tallies port) }
    {
        match self.board.take(port, Side::Send) {
            None => self.take_value(events, caller, port),
            Some(sender) => self.let_in(events, caller, port, &sender),
        }
    }

    /// A case that was chosen among others fires, as `fire` tells. It stands apart, so that the compiler knows the index of a call's
    /// only case.
    #[inline(never)]
    pub(crate) fn fire_chosen<E: Hears>(&mut self, events: &mut E, caller: Caller, case: &Case)
        requires named { IsNamed self.old.board case.now }
        requires keep { PortsKeep self.old.board self.old.tallies }
        requires can { can_on self.old.board case.now ≡ true }
        requires room { 1 < E.room events.old }
        ensures fires { Fires self.new.board self.new.tallies (fire_on self.old.board self.old.tallies case.now) }
        ensures told { HearsFiring E.heard E.room events.old events.new caller (fire_on self.old.board self.old.tallies case.now) }
    {
        self.fire(events, caller, case);
    }

    /// A case that can proceed fires: the caller is told, and then the waiting call that ended with it.
    #[inline(always)]
    pub(crate) fn fire<E: Hears>(&mut self, events: &mut E, caller: Caller, case: &Case)
        requires named { IsNamed self.old.board case.now }
        requires keep { PortsKeep self.old.board self.old.tallies }
        requires can { can_on self.old.board case.now ≡ true }
        requires room { 1 < E.room events.old }
        ensures fires { Fires self.new.board self.new.tallies (fire_on self.old.board self.old.tallies case.now) }
        ensures told { HearsFiring E.heard E.room events.old events.new caller (fire_on self.old.board self.old.tallies case.now) }
    {
        match case {
            Case::Send(port, value) => self.send(events, caller, *port, value),
            Case::Recv(port) => self.receive(events, caller, *port),
        }
    }
}
