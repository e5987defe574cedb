//! What an admitted step does, and what it tells.

ghost use Rattle.std.specs.Prelude.{◌≡◌, ◌≤◌, ◌<◌, ◌+◌, ◌∷◌, ◌++◌, [], false, true, length, OnOk, OnErr};
ghost use Rattle.hub_base.specs.declared.event.What.TheVariants as what;
ghost use Rattle.hub_parts.specs.Lists.{IsMade, ended_by, new_port, with_new, with_port};
ghost use Rattle.hub_core.specs.Prelude.{AllMade, MOST_EVENTS, tells};
ghost use Rattle.hub_core.specs.ListSteps.{IsCalled, calls_on, count_gone, open_on};
ghost use Rattle.hub_core.specs.ListKeeps.{PortsKeep};
ghost use Rattle.hub_core.specs.Hearing.{Heard};
ghost use Rattle.hub_core.specs.Records.{machine_of, no_tally};
ghost use Rattle.hub_core.specs.Follows.{Acts, MayAct};

use crate::closing::close;
use crate::exited::Exited;
use crate::firing::{Caller, CountedBoard};
use crate::refusals::{
    call_fault, cancel_fault, close_fault, make_fault, reopen_fault, start_fault,
};
use crate::select::{choose, park_or_default};
use hub_base::{
    CaseSlice, Edition, EntryRef, Event, Fault, Hears, MOST_PORTS, MOST_PROCS, NoMemory, Pid, Port,
    Step, What,
};

/// The event that tells a process this.
pub(crate) fn tells(pid: Pid, what: What) -> Event
    ensures { result ≡ tells pid what }
{
    Event { pid, what }
}

/// Tells a process why its step had no effect.
fn tell_fault<E: Hears>(pid: Pid, fault: Fault, events: &mut E)
    requires room { 0 < E.room events.old }
    ensures { Heard E.heard E.room events.old events.new (tells pid (what.Fault fault) ∷ []) }
{
    events.hear(tells(pid, What::Fault(fault)));
}

impl CountedBoard {
    /// Makes a port. Where memory is refused nothing changes.
    #[inline(never)]
    fn make<E: Hears>(&mut self, pid: Pid, cap: u32, events: &mut E) -> Result<(), NoMemory>
        requires few { length self.old.board.ports < MOST_PORTS }
        requires counts { length self.old.tallies ≡ length self.old.board.ports }
        requires room { 0 < E.room events.old }
        ensures board { OnOk result (self.new.board ≡ with_new cap self.old.board) }
        ensures counts { OnOk result (self.new.tallies ≡ self.old.tallies ++ no_tally ∷ []) }
        ensures told { OnOk result (Heard E.heard E.room events.old events.new
            (tells pid (what.Made (record { 0 = length self.old.board.ports + 1 })) ∷ [])) }
        ensures unchanged { OnErr result (self.new ≡ self.old) }
        ensures silent { OnErr result (events.new ≡ events.old) }
    {
        let port = self.board.make(cap)?;
        self.tallies.add();
        events.hear(tells(pid, What::Made(port)));
        Ok(())
    }

    /// Opens a port again. Where memory is refused nothing changes.
    #[inline(never)]
    fn reopen<E: Hears>(
        &mut self,
        pid: Pid,
        port: Port,
        cap: u32,
        events: &mut E,
    ) -> Result<(), NoMemory>
        requires made { IsMade self.old.board port }
        requires room { 0 < E.room events.old }
        ensures board { OnOk result (self.new.board ≡ with_port self.old.board port (new_port cap)) }
        ensures counts { OnOk result (self.new.tallies ≡ self.old.tallies) }
        ensures told { OnOk result (Heard E.heard E.room events.old events.new (tells pid what.Done ∷ [])) }
        ensures unchanged { OnErr result (self.new ≡ self.old) }
        ensures silent { OnErr result (events.new ≡ events.old) }
    {
        self.board.reopen(port, cap)?;
        events.hear(tells(pid, What::Done));
        Ok(())
    }

    /// A call of a process that has none open, and what follows it. Its ticket is the place of its entry.
    fn call<E: Hears>(
        &mut self,
        pid: Pid,
        ticket: u32,
        cases: &CaseSlice<'_>,
        default: bool,
        word: u64,
        events: &mut E,
    )
        requires below { pid.0 < self.old.board.procs }
        requires free { open_on self.old.board.waiting pid.0 ≡ false }
        requires named { AllMade (length self.old.board.ports) cases.now.items }
        requires keep { PortsKeep self.old.board self.old.tallies }
        requires later { self.old.board.next_ticket ≤ ticket }
        requires room { 1 < E.room events.old }
        ensures called { IsCalled self.new.board self.new.tallies
            (calls_on self.old.board self.old.tallies ticket pid cases.now.items default word) }
        ensures told { Heard E.heard E.room events.old events.new
            (calls_on self.old.board self.old.tallies ticket pid cases.now.items default word).events }
    {
        match choose(&self.board, cases.as_slice(), word) {
            None => park_or_default(&mut self.board, events, ticket, pid, cases, default),
            Some(chosen) => {
                let caller = Caller {
                    pid,
                    index: chosen.index,
                };
                // The index of an only case is known to be 0, so its way is a shorter one.
                if cases.as_slice().len() == 1 {
                    self.fire(events, caller, chosen.case);
                } else {
                    self.fire_chosen(events, caller, chosen.case);
                }
            }
        }
    }

    /// Ends the open call of another process.
    #[inline(never)]
    fn cancel<E: Hears>(&mut self, pid: Pid, other: Pid, events: &mut E)
        requires open { open_on self.old.board.waiting other.0 ≡ true }
        requires room { 1 < E.room events.old }
        ensures board { self.new.board ≡ ended_by other self.old.board }
        ensures counts { self.new.tallies ≡ self.old.tallies }
        ensures told { Heard E.heard E.room events.old events.new
            (tells pid what.Done ∷ tells other what.Cancelled ∷ []) }
    {
        self.board.withdraw(other);
        events.hear(tells(pid, What::Done));
        events.hear(tells(other, What::Cancelled));
    }

    /// What an admitted step does, or the fault that it is told instead. A make that is refused memory changes nothing.
    #[inline(always)]
    pub(crate) fn act<E: Hears>(
        &mut self,
        exited: &mut Exited,
        edition: Edition,
        ticket: u32,
        entry: &EntryRef<'_>,
        events: &mut E,
    ) -> Result<(), NoMemory>
        requires may { MayAct (machine_of edition self.old.board self.old.tallies exited.old.gone ticket) entry.now.pid }
        requires room { MOST_EVENTS ≤ E.room events.old }
        requires few { self.old.board.procs ≤ MOST_PROCS }
        requires count { exited.old.count ≡ count_gone exited.old.gone self.old.board.procs }
        ensures acts { Acts E.heard E.room (machine_of edition self.old.board self.old.tallies exited.old.gone ticket) entry.now.pid entry.now.step
            (machine_of edition self.new.board self.new.tallies exited.new.gone ticket) events.old events.new result }
        ensures procs { self.new.board.procs ≡ self.old.board.procs }
        ensures count { exited.new.count ≡ count_gone exited.new.gone self.old.board.procs }
        ensures places { length exited.old.gone ≡ MOST_PROCS }
    {
        let board = &self.board;
        let pid = entry.pid;
        match &entry.step {
            Step::Make(cap) => match make_fault(board, *cap) {
                None => return self.make(pid, *cap, events),
                Some(fault) => tell_fault(pid, fault, events),
            },
            Step::Call {
                cases,
                default,
                word,
            } => {
                // This slice is what is passed on, so that the compiler need not keep the entry itself in memory.
                let cases = CaseSlice::few(cases.as_slice());
                match call_fault(edition, board, cases.as_slice()) {
                    None => self.call(pid, ticket, &cases, *default, *word, events),
                    Some(fault) => tell_fault(pid, fault, events),
                }
            }
            Step::Close(port) => match close_fault(board, *port) {
                None => close(&mut self.board, events, pid, *port),
                Some(fault) => tell_fault(pid, fault, events),
            },
            Step::Exit => {
                exited.add(pid);
                events.hear(tells(pid, What::Done));
            }
            Step::Cancel(other) => match cancel_fault(board, *other) {
                None => self.cancel(pid, *other, events),
                Some(fault) => tell_fault(pid, fault, events),
            },
            Step::Start(other) => match start_fault(exited, *other) {
                None => {
                    exited.remove(*other);
                    events.hear(tells(pid, What::Done));
                }
                Some(fault) => tell_fault(pid, fault, events),
            },
            Step::Reopen { port, cap } => match reopen_fault(board, *port, *cap) {
                None => return self.reopen(pid, *port, *cap, events),
                Some(fault) => tell_fault(pid, fault, events),
            },
        }
        Ok(())
    }
}
