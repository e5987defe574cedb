//! A machine: makes the steps of a hub, and keeps no journal.
//!
//! Every machine is what some run leads to: its board's open calls are those of the run's state, in
//! order and each under the place of its entry among the admitted ones; its buffers are what was
//! sent and not yet received; its tallies are how many values were sent and received.

ghost use Rattle.std.specs.Prelude.{◌≡◌, ◌≤◌, ◌<◌, ◌+◌, ◌-◌, ◌^◌, List, [], None, length, slice_get, IfOk, IfErr, OnOk, OnErr, IsErrOf};
ghost use Rattle.std.specs.Option.{option_map};
ghost use Rattle.hub_parts.specs.Lists.{shown_call};
ghost use Rattle.hub_core.specs.Prelude.{Entry, Head, IsHead, MOST_EVENTS, refusal, state};
ghost use Rattle.hub_core.specs.Hearing.{Heard};
ghost use Rattle.hub_core.specs.ListSteps.{refusal_of, turn_on};
ghost use Rattle.hub_core.specs.Looks.{look_at, value_at};
ghost use Rattle.hub_core.specs.Follows.{Follows, Admits, Answers, Tells, TakesMemory, IsFine, RefusesFor, Turns, RefusesMake};

use crate::admitted::tells;
use crate::exited::Exited;
use crate::firing::CountedBoard;
use crate::looking::{buffered, look};
use crate::refusals::refusal;
use crate::stalling::{all_wait, stop_all};
use crate::tally::Tallies;
use hub_base::{
    Cases, EntryRef, Events, Fault, Head, Hears, Look, NoMemory, Pid, Port, Value, What,
};
use hub_parts::Board;
use hub_text::EntryPlace;
use std::alloc::Global;
use std::marker::Model;

/// The step function of a hub: makes steps and tells what follows, without a journal.
#[derive(Drop)]
pub struct Machine {
    /// What the journal's head says.
    head: Head,
    /// The buffers, the calls that wait, and what each port has carried.
    counted: CountedBoard,
    /// Who has exited.
    exited: Exited,
    /// How many entries came, from which each call has its ticket.
    steps: u32,
}

impl Model for Machine {
    ghost use Rattle.hub_core.specs.Records.{MachineLists, machine_of};
    ghost use Rattle.hub_core.specs.MachineKeeps.{MachineKeeps};

    ghost Value = { MachineLists };

    ghost view = { λ m. machine_of m.head.edition m.counted.board m.counted.tallies m.exited.gone m.steps };

    ghost invariant = { λ m. MachineKeeps m };
}

/// Takes the events away one by one. They are few, and to clear the list would cost more.
#[inline]
pub(crate) fn empty(events: &mut Events)
    ensures { events.new.items ≡ [] }
{
    while let Some(_event) = events.pop() {}
}

impl Machine {
    /// A machine of 1 to `MOST_PROCS` processes, at which nothing has happened. It takes all the memory that
    /// the open calls will ever need.
    pub fn new(alloc: Global, head: Head) -> Result<Machine, NoMemory>
        requires { IsHead head }
        ensures { IfOk result (λ m. Follows head [] m) }
    {
        Ok(Machine {
            head,
            counted: CountedBoard {
                board: Board::new(alloc, head.procs)?,
                tallies: Tallies::new(),
            },
            exited: Exited::none(),
            steps: 0,
        })
    }

    /// A machine that what came so far has led to too, and which takes as much memory.
    pub fn copy(&self, alloc: Global) -> Result<Machine, NoMemory>
        ensures { IfOk result (λ m. m ≡ self.now) }
    {
        Ok(Machine {
            head: self.head,
            counted: self.counted.copy(alloc)?,
            exited: self.exited,
            steps: self.steps,
        })
    }

    /// Makes it what led to another has led to. It takes no memory where both have as many processes, and ports of the same
    /// capacities. After a refusal it is as before.
    pub fn copy_from(&mut self, alloc: Global, other: &Machine) -> Result<(), NoMemory>
        ensures ok { OnOk result (self.new ≡ other.now) }
        ensures unchanged { OnErr result (self.new ≡ self.old) }
    {
        if self.counted.board.has_shape_of(&other.counted.board) {
            self.counted.copy_from(&other.counted);
        } else {
            self.counted = other.counted.copy(alloc)?;
        }
        self.head = other.head;
        self.exited = other.exited;
        self.steps = other.steps;
        Ok(())
    }

    /// Makes a step. On `Ok`, `events` are the caller's answer and then the calls that ended, in
    /// order of arrival.
    ///
    /// Refused by `NoProcess`, `Gone` or `Busy`, tested in this order, where the process does not
    /// exist, has exited or has an open call, and by `NoMemory` where a make or a reopen was refused a growth.
    /// The machine is then as before, and `events` are empty.
    pub fn step(&mut self, entry: &EntryRef<'_>, events: &mut Events) -> Result<(), Fault>
        requires { self.old.steps < 2 ^ 32 - 1 }

        ensures ok { OnOk result ((h : Head) (es : List Entry) → Follows h es self.old
            → Admits h es entry.now self.new events.new.items) }
        ensures steps { OnOk result (self.new.steps ≡ self.old.steps + 1) }

        ensures refused { IfErr result (λ f. (h : Head) (es : List Entry) → Follows h es self.old
            → RefusesFor h es entry.now f) }
        ensures memory { IsErrOf result Fault.NoMemory → TakesMemory entry.now.step }
        ensures fine { IsErrOf result Fault.NoMemory → (h : Head) (es : List Entry)
            → Follows h es self.old → IsFine (state h es) entry.now }
        ensures unchanged { OnErr result (self.new ≡ self.old) }
        ensures empty { OnErr result (events.new.items ≡ []) }
    {
        empty(events);
        if let Some(fault) = self.refusal(entry.pid) {
            return Err(fault);
        }
        match self.step_admitted(entry, events) {
            Ok(()) => Ok(()),
            Err(NoMemory) => Err(Fault::NoMemory),
        }
    }

    /// Makes a step, and tells what follows: a refusal by `NoProcess`, `Gone` or `Busy` is told as
    /// one event. Memory is refused to a make or a reopen alone; the machine is then as before, and
    /// `events` are empty.
    pub fn answer(&mut self, entry: &EntryRef<'_>, events: &mut Events) -> Result<(), NoMemory>
        requires { self.old.steps < 2 ^ 32 - 1 }

        ensures ok { OnOk result ((h : Head) (es : List Entry) → Follows h es self.old
            → Answers h es entry.now self.new events.new.items) }
        ensures steps { OnOk result (self.new.steps ≤ self.old.steps + 1) }

        ensures make { OnErr result (TakesMemory entry.now.step) }
        ensures fine { OnErr result ((h : Head) (es : List Entry) → Follows h es self.old
            → IsFine (state h es) entry.now) }
        ensures unchanged { OnErr result (self.new ≡ self.old) }
        ensures empty { OnErr result (events.new.items ≡ []) }
    {
        empty(events);
        match self.refusal(entry.pid) {
            None => self.step_admitted(entry, events),
            Some(fault) => {
                events.hear(tells(entry.pid, What::Fault(fault)));
                Ok(())
            }
        }
    }

    /// As `answer`, of the entry in a place, to whoever hears the events behind those that it has heard before; there must
    /// be room for those of any step. Where memory is refused nothing is told.
    #[inline(always)]
    pub fn step_into<E: Hears>(
        &mut self,
        place: &EntryPlace,
        events: &mut E,
    ) -> Result<(), NoMemory>
        requires steps { self.old.steps < 2 ^ 32 - 1 }
        requires room { MOST_EVENTS ≤ E.room events.old }

        ensures ok { OnOk result ((h : Head) (es : List Entry) → Follows h es self.old
            → Tells h es place.now self.new (E.heard events.old) events.new) }
        ensures steps { OnOk result (self.new.steps ≤ self.old.steps + 1) }

        ensures make { OnErr result (TakesMemory place.now.step) }
        ensures fine { OnErr result ((h : Head) (es : List Entry) → Follows h es self.old
            → IsFine (state h es) place.now) }
        ensures unchanged { OnErr result (self.new ≡ self.old) }
        ensures silent { OnErr result (events.new ≡ events.old) }
    {
        let pid = place.pid();
        if let Some(fault) = self.refusal(pid) {
            events.hear(tells(pid, What::Fault(fault)));
            return Ok(());
        }
        // Only now, so that the compiler asks once which step it is.
        self.step_admitted(&place.entry(), events)
    }

    /// Makes an admitted step, and tells what follows. After a refusal nothing is told, and the machine is as
    /// before.
    pub(crate) fn step_admitted<E: Hears>(
        &mut self,
        entry: &EntryRef<'_>,
        events: &mut E,
    ) -> Result<(), NoMemory>
        requires steps { self.old.steps < 2 ^ 32 - 1 }
        requires admitted { refusal_of self.old.board self.old.gone entry.now.pid ≡ None }
        requires room { MOST_EVENTS ≤ E.room events.old }
        ensures ok { OnOk result (
            Turns self.old entry.now self.new (turn_on self.old entry.now).events) }
        ensures told { OnOk result (
            Heard E.heard E.room events.old events.new (turn_on self.old entry.now).events) }
        ensures few { OnOk result (length (turn_on self.old entry.now).events ≤ MOST_EVENTS) }
        ensures err { OnErr result (RefusesMake self.old entry.now self.new []) }
        ensures silent { OnErr result (events.new ≡ events.old) }
    {
        self.counted.act(
            &mut self.exited,
            self.head.edition,
            self.steps,
            entry,
            events,
        )?;
        if all_wait(&self.counted.board, &self.exited, self.head.procs) {
            stop_all(&mut self.counted.board, events);
        }
        self.steps += 1;
        Ok(())
    }

    /// Why a step of this process would be refused now: `NoProcess`, `Gone`, `Busy`, or nothing.
    pub fn refusal(&self, pid: Pid) -> Option<Fault>
        ensures run { (h : Head) (es : List Entry) → Follows h es self.now
            → result ≡ refusal (state h es) pid }
        ensures lists { result ≡ refusal_of self.now.board self.now.gone pid }
    {
        refusal(&self.counted.board, &self.exited, self.head.procs, pid)
    }

    /// The open call at this place, counted from the oldest: whose it is, and its cases. `None` behind the newest.
    #[tactic(auto, using(crate::proofs::Following::call_shown))]
    pub fn call_at(&self, place: usize) -> Option<(Pid, Cases)>
        ensures { (h : Head) (es : List Entry) → Follows h es self.now
            → option_map shown_call result ≡ slice_get (state h es).parked place }
    {
        self.counted.board.call(place)
    }

    /// The capacity and the counts of a port, or `None` for port 0 and for a port that was not made.
    pub fn look(&self, port: Port) -> Option<Look>
        ensures { (h : Head) (es : List Entry) → Follows h es self.now
            → result ≡ look_at (state h es) port }
    {
        look(&self.counted.board, &self.counted.tallies, port)
    }

    /// The value at a place of a port's buffer, 0 the oldest. `None` past its end, for port 0 and
    /// for a port that was not made.
    pub fn buffered(&self, port: Port, place: u32) -> Option<Value>
        ensures { (h : Head) (es : List Entry) → Follows h es self.now
            → result ≡ value_at (state h es) port place }
    {
        buffered(&self.counted.board, port, place)
    }
}
