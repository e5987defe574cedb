//! A hub: a machine and its journal, in one form or the other.
//!
//! The journal holds the admitted entries, and the machine is what they lead to. It has room for the
//! exit of each process from the opening on, and for the steps that were reserved; so neither an
//! exit nor a reserved step is refused memory. In a `Hub` neither asks for it; a `ShortHub` may ask for room for
//! what it keeps of a step, and writes its entries out where that is refused.

ghost use Rattle.std.specs.Prelude.{◌≡◌, ◌≤◌, ◌<◌, ◌+◌, IfOk, IfErr, IsOk, OnOk, OnErr, length, max, slice_get};
ghost use Rattle.std.specs.Option.{option_map};
ghost use Rattle.hub_base.specs.Head.{IsHead, AreOf, head_of};
ghost use Rattle.hub_base.specs.Runs.{kept};
ghost use Rattle.hub_base.specs.Steps.{refusal};
ghost use Rattle.hub_base.specs.Text.{steps_of};
ghost use Rattle.hub_parts.specs.Lists.{shown_call};
ghost use Rattle.hub_core.specs.Looks.{look_at, value_at};
ghost use Rattle.hub_core.specs.HubView.{RefusesOpening, opened_hub, state_of, terms_of, IsLimit};

use crate::form::{Form, Short, Whole};
use crate::log::Log;
use crate::{CaseRoom, Machine, OpenFault, ShortJournal, Terms};
use hub_base::{
    Cases, Edition, Entry, EntryRef, Fault, Head, Journal, Look, MOST_PROCS, MOST_STEPS, NoMemory,
    Pid, Port, Value,
};
use std::alloc::Global;
use std::marker::{Model, PhantomData};

/// A hub of channels: makes the steps of its processes, tells what follows, and keeps a journal, in the form `F`.
#[derive(Drop)]
pub struct HubOf<F: Form> {
    /// What it was opened with.
    pub(crate) terms: Terms,
    /// How many calls, closes and cancels are not refused memory.
    pub(crate) places: u32,
    /// How many entries of the journal are no exits.
    pub(crate) count: u32,
    /// What the journal has led to.
    pub(crate) machine: Machine,
    /// The journal: the admitted entries, in order.
    pub(crate) entries: Log,
    /// The form of the journal.
    form: PhantomData<F>,
}

/// A hub whose journal is written out.
pub type Hub = HubOf<Whole>;

/// A hub whose journal is kept short until it is asked for.
pub type ShortHub = HubOf<Short>;

impl<F: Form> Model for HubOf<F> {
    ghost use Rattle.hub_core.specs.HubView.{ShortInMemory};

    ghost Value = { ShortInMemory };

    ghost use Rattle.hub_core.specs.HubKeeps.{HubKeeps, InForm, shown_short};

    ghost view = { λ h. shown_short h };

    ghost invariant = { λ h. HubKeeps h × InForm F.whole h.entries.short };
}

impl<F: Form> HubOf<F> {
    /// A hub of this edition, of 1 to `MOST_PROCS` processes, whose journal may hold `limit` entries that are no exits, 1
    /// to `MOST_STEPS`. It takes the memory of all open calls, and of an exit of each process in the journal.
    ///
    /// Err, tested in this order, with nothing kept: `BadProcs`, `BadLimit`, `NoMemory`.
    pub fn open(
        alloc: Global,
        procs: u8,
        limit: u32,
        edition: Edition,
    ) -> Result<HubOf<F>, OpenFault>
        ensures ok { IfOk result (λ h. h.memory.hub ≡ opened_hub (terms_of edition procs limit)) }
        ensures exact { IfOk result (λ h. h.memory.capacity ≡ procs) }
        ensures whole { IfOk result (λ h. h.short ≡ 0) }
        ensures bounds { OnOk result (IsHead (head_of edition procs) × IsLimit limit) }
        ensures err { IfErr result (λ f. RefusesOpening (terms_of edition procs limit) f) }
    {
        if procs == 0 || procs as usize > MOST_PROCS {
            return Err(OpenFault::BadProcs);
        }
        if limit == 0 || limit > MOST_STEPS {
            return Err(OpenFault::BadLimit);
        }
        let terms = Terms {
            head: Head { edition, procs },
            limit,
        };
        let machine = Machine::new(alloc, terms.head)?;
        let entries = Log::with_capacity(alloc, procs.into())?;
        Ok(HubOf {
            terms,
            places: 0,
            count: 0,
            machine,
            entries,
            form: PhantomData,
        })
    }

    /// A hub with the same journal, at which all has happened that has at this one. An error is memory.
    pub fn copy(&self, alloc: Global) -> Result<HubOf<F>, NoMemory>
        ensures { IfOk result (λ h. h.memory.hub ≡ self.now.memory.hub) }
    {
        Ok(HubOf {
            terms: self.terms,
            places: self.places,
            count: self.count,
            machine: self.machine.copy(alloc)?,
            entries: self.entries.copy(alloc)?,
            form: PhantomData,
        })
    }

    /// Makes it a hub with the journal of another, at which all has happened that has at that one. It takes no memory where
    /// it has as much as that one has. After a refusal, which is memory, it is as before.
    pub fn copy_from(&mut self, alloc: Global, other: &HubOf<F>) -> Result<(), NoMemory>
        ensures ok { OnOk result (self.new.memory.hub ≡ other.now.memory.hub) }
        ensures unchanged { OnErr result (self.new.memory.hub ≡ self.old.memory.hub) }
    {
        self.entries.reserve_for(&other.entries)?;
        self.machine.copy_from(alloc, &other.machine)?;
        self.entries.copy_from(&other.entries);
        self.terms = other.terms;
        self.places = other.places;
        self.count = other.count;
        Ok(())
    }

    /// Makes room in the journal: after `Ok` the next `k` calls, closes and cancels are not refused
    /// memory, and in a `Hub` take none. After a refusal the hub is as before.
    pub fn reserve(&mut self, k: u32) -> Result<(), NoMemory>
        ensures ok { OnOk result (
            self.new.memory.hub ≡ record self.old.memory.hub { places = max self.old.memory.hub.places k }) }
        ensures more { OnErr result (self.old.memory.hub.places < k) }
        ensures full { OnErr result (
            self.old.memory.capacity < length self.old.memory.hub.journal + k + self.old.memory.hub.terms.head.procs) }
        ensures unchanged { OnErr result (self.new ≡ self.old) }
        ensures spare { length self.old.memory.hub.journal + k + self.old.memory.hub.terms.head.procs ≤ self.old.memory.capacity
            → self.new.memory.capacity ≡ self.old.memory.capacity }
        ensures kept { k ≤ self.old.memory.hub.places → self.new.memory.capacity ≡ self.old.memory.capacity }
        ensures capacity { self.old.memory.capacity ≤ self.new.memory.capacity }
        ensures short { self.new.short ≡ self.old.short }
    {
        if k > self.places {
            self.entries
                .reserve_more(k as usize + self.terms.head.procs as usize)?;
            self.places = k;
        }
        Ok(())
    }

    /// The capacity and the counts of a port, or `None` for port 0 and for a port that was not made.
    pub fn look(&self, port: Port) -> Option<Look>
        ensures { result ≡ look_at (state_of self.now.memory.hub) port }
    {
        self.machine.look(port)
    }

    /// The value at a place of a port's buffer, 0 the oldest. `None` past its end, for port 0 and for
    /// a port that was not made.
    pub fn buffered(&self, port: Port, place: u32) -> Option<Value>
        ensures { result ≡ value_at (state_of self.now.memory.hub) port place }
    {
        self.machine.buffered(port, place)
    }

    /// The open call at this place, counted from the oldest: whose it is, and its cases. `None` behind the newest.
    pub fn call_at(&self, place: usize) -> Option<(Pid, Cases)>
        ensures { option_map shown_call result ≡ slice_get (state_of self.now.memory.hub).parked place }
    {
        self.machine.call_at(place)
    }

    /// Why a step of this process would be refused now: `NoProcess`, `Gone`, `Busy`, or nothing.
    pub fn refusal(&self, pid: Pid) -> Option<Fault>
        ensures { result ≡ refusal (state_of self.now.memory.hub) pid }
    {
        self.machine.refusal(pid)
    }

    /// What it was opened with.
    pub fn terms(&self) -> Terms
        ensures value { result ≡ self.now.memory.hub.terms }
        ensures head { IsHead result.head }
        ensures limit { IsLimit result.limit }
    {
        self.terms
    }

    /// How many calls, closes and cancels are not refused memory; in a `Hub` they take none.
    pub fn places(&self) -> u32
        ensures { result ≡ self.now.memory.hub.places }
    {
        self.places
    }

    /// That each entry of its journal was admitted when it came, and is one that the edition has, and that the journal has no
    /// more steps than its limit.
    pub fn journal_is_legal(&self)
        ensures legal { kept self.now.memory.hub.terms.head self.now.memory.hub.journal ≡ self.now.memory.hub.journal }
        ensures fits { AreOf self.now.memory.hub.terms.head.edition self.now.memory.hub.journal }
        ensures few { steps_of self.now.memory.hub.journal ≤ self.now.memory.hub.terms.limit }
    {
        let _count = self.count;
    }

    /// What its journal's head lines say: its edition, and its number of processes.
    pub fn head(&self) -> Head
        ensures value { result ≡ self.now.memory.hub.terms.head }
        ensures range { IsHead result }
    {
        self.terms.head
    }

    /// How many entries the journal has.
    pub fn len(&self) -> usize
        ensures { result ≡ length self.now.memory.hub.journal }
    {
        self.entries.len()
    }

    /// The journal's entry at this place, counted from 0; `None` behind the last. The cases of one that is kept short are put in
    /// the room for them. Each entry was admitted when it came, and is one that the edition has.
    #[inline(always)]
    pub fn entry<'a>(&'a self, place: usize, room: &'a mut CaseRoom) -> Option<EntryRef<'a>>
        ensures entry { result ≡ slice_get self.now.memory.hub.journal place }
        ensures legal { kept self.now.memory.hub.terms.head self.now.memory.hub.journal ≡ self.now.memory.hub.journal }
        ensures fits { AreOf self.now.memory.hub.terms.head.edition self.now.memory.hub.journal }
    {
        self.entries.entry(place, room)
    }

    /// The journal of the hub, which ends. It takes no memory.
    pub fn into_journal(self) -> Journal
        ensures journal { result ≡ record { head = self.memory.hub.terms.head; entries = self.memory.hub.journal } }
        ensures legal { kept self.memory.hub.terms.head self.memory.hub.journal ≡ self.memory.hub.journal }
        ensures fits { AreOf self.memory.hub.terms.head.edition self.memory.hub.journal }
    {
        let Head { edition, procs } = self.terms.head;
        Journal::of(edition, procs, self.entries.into_vec())
    }
}

impl HubOf<Whole> {
    /// The journal so far. Each of its entries was admitted when it came, and is one that the edition has.
    pub fn entries(&self) -> &[Entry]
        ensures journal { result.now ≡ self.now.memory.hub.journal }
        ensures whole { self.now.short ≡ 0 }
        ensures legal { kept self.now.memory.hub.terms.head self.now.memory.hub.journal ≡ self.now.memory.hub.journal }
        ensures fits { AreOf self.now.memory.hub.terms.head.edition self.now.memory.hub.journal }
    {
        self.entries.as_slice()
    }

    /// The same hub, which keeps its journal short from now on. It takes no memory.
    pub fn shortened(self) -> ShortHub
        ensures { result ≡ self }
    {
        HubOf {
            terms: self.terms,
            places: self.places,
            count: self.count,
            machine: self.machine,
            entries: self.entries,
            form: PhantomData,
        }
    }
}

impl HubOf<Short> {
    /// The journal of the hub, which ends, kept short. It takes memory only where some of its entries are written out; an
    /// `Err` is memory.
    pub fn into_short_journal(self, alloc: Global) -> Result<ShortJournal, NoMemory>
        ensures journal { IfOk result (λ j. j ≡ record { head = self.memory.hub.terms.head; entries = self.memory.hub.journal }) }
        ensures legal { kept self.memory.hub.terms.head self.memory.hub.journal ≡ self.memory.hub.journal }
        ensures fits { AreOf self.memory.hub.terms.head.edition self.memory.hub.journal }
        ensures short { self.short ≡ length self.memory.hub.journal → IsOk result }
    {
        let head = self.terms.head;
        let list = self.entries.into_short(alloc)?;
        Ok(ShortJournal::of(head, list))
    }
}
