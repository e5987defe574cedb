//! A step of a hub: the machine makes it, and its entry is appended to the journal.

ghost use Rattle.std.specs.Prelude.{◌≡◌, ◌≤◌, ◌<◌, ◌+◌, ◌-◌, ◌^◌, ◌↔◌, ◌++◌, ◌∷◌, [], IsTrue, IfOk, OnOk, OnErr, false, length, true};
ghost use Rattle.hub_base.specs.Head.{is_of};
ghost use Rattle.hub_base.specs.Reading.{is_exit};
ghost use Rattle.hub_core.specs.HubView.{Steps, StepsHeard, StepRules, Grows, places_after};
ghost use Rattle.hub_core.specs.HubKeeps.{InForm, count_after, Takes};
ghost use Rattle.hub_core.specs.Prelude.{MOST_EVENTS};

use crate::form::Form;
use crate::hub::HubOf;
use crate::log::Log;
use crate::machine::empty;
use hub_base::{Entry, EntryRef, Events, Fault, Hears, Step, StepRef};

/// How many entries are no exits, after this one.
fn count_after(step: &StepRef<'_>, count: u32) -> u32
    requires { count < 2 ^ 32 - 1 }
    ensures { result ≡ count_after step.now count }
{
    if step.is_exit() { count } else { count + 1 }
}

/// How many calls, closes and cancels are not refused memory after this step.
fn places_after(step: &StepRef<'_>, places: u32) -> u32
    ensures { result ≡ places_after step.now places }
{
    match step {
        Step::Make(_) | Step::Exit | Step::Start(_) | Step::Reopen { .. } => places,
        Step::Call { .. } | Step::Close(_) | Step::Cancel(_) => places.saturating_sub(1),
    }
}

/// Whether the journal may have to grow for the step.
fn grows(step: &StepRef<'_>, places: u32) -> bool
    ensures { IsTrue result ↔ Grows step.now places }
{
    match step {
        Step::Make(_) | Step::Start(_) | Step::Reopen { .. } => true,
        Step::Call { .. } | Step::Close(_) | Step::Cancel(_) => places == 0,
        Step::Exit => false,
    }
}

/// Whether so many entries that are no exits are as many as the journal may hold. An exit always finds room.
fn is_full(step: &StepRef<'_>, count: u32, limit: u32) -> bool
    ensures { IsTrue result ↔ ((is_exit step.now ≡ false) × (limit ≤ count)) }
{
    !step.is_exit() && count >= limit
}

/// How many entries have to fit once it may have to grow: this one, the places, and an exit of each process.
fn room_for(places: u32, procs: u8) -> usize
    ensures { result ≡ places + procs + 1 }
{
    places as usize + procs as usize + 1
}

/// Appends an entry in the form of the hub.
#[inline(always)]
fn append<F: Form>(entries: &mut Log, entry: &EntryRef<'_>)
    requires whole { InForm F.whole entries.old.short }
    requires room { length entries.old.items < entries.old.capacity }
    ensures items { entries.new.items ≡ entries.old.items ++ entry.now ∷ [] }
    ensures capacity { entries.new.capacity ≡ entries.old.capacity }
    ensures whole { InForm F.whole entries.new.short }
{
    if F::is_whole() {
        entries.push(entry.to_owned());
    } else {
        entries.push_short(entry);
    }
}

impl<F: Form> HubOf<F> {
    /// Makes a step that the hub's edition has. The first event is the caller's answer; the calls that ended
    /// follow, in order of arrival.
    ///
    /// Refused by `JournalFull`, `NoProcess`, `Gone`, `Busy` and `NoMemory` alone, tested in this
    /// order; the hub is then as before. An exit is never refused by `JournalFull` or `NoMemory`,
    /// and by `NoMemory` only a make, a start or a reopen is, or a step for which no place is left.
    /// All other faults are answers, and their entries are kept.
    pub fn step(&mut self, entry: Entry) -> Result<Events, Fault>
        requires fits { is_of self.old.memory.hub.terms.head.edition entry.step ≡ true }
        ensures ok { IfOk result (λ events. Steps self.old.memory.hub entry self.new.memory.hub events.items) }
        ensures rules { StepRules self.old.memory entry self.new.memory result }
    {
        let mut events = Events::new();
        self.step_into(&entry.by_slice(), &mut events)?;
        Ok(events)
    }

    /// Makes a step as `step` does, and leaves its events in place of those that were there. After a
    /// refusal these may be any.
    pub fn step_into(&mut self, entry: &EntryRef<'_>, events: &mut Events) -> Result<(), Fault>
        requires fits { is_of self.old.memory.hub.terms.head.edition entry.now.step ≡ true }
        ensures ok { OnOk result (Steps self.old.memory.hub entry.now self.new.memory.hub events.new.items) }
        ensures rules { StepRules self.old.memory entry.now self.new.memory result }
    {
        empty(events);
        self.step_heard(entry, events)
    }

    /// The same, and its events are heard by whoever has room for those of any step. After a refusal none was.
    pub fn step_heard<E: Hears>(
        &mut self,
        entry: &EntryRef<'_>,
        events: &mut E,
    ) -> Result<(), Fault>
        requires fits { is_of self.old.memory.hub.terms.head.edition entry.now.step ≡ true }
        requires room { MOST_EVENTS ≤ E.room events.old }
        ensures ok { OnOk result (
            StepsHeard self.old.memory.hub entry.now self.new.memory.hub (E.heard events.old) events.new) }
        ensures rules { StepRules self.old.memory entry.now self.new.memory result }
        ensures silent { OnErr result (events.new ≡ events.old) }
    {
        self.admit(entry)?;
        // There is room for the entry now, and the machine steps first, since memory may be refused to it: behind it nothing is
        // refused.
        let Ok(()) = self.machine.step_admitted(entry, events) else {
            return Err(Fault::NoMemory);
        };
        self.count = count_after(&entry.step, self.count);
        self.places = places_after(&entry.step, self.places);
        append::<F>(&mut self.entries, entry);
        Ok(())
    }

    /// Looks whether the journal takes the entry, and makes room for it where the journal may have to grow. The tests stand in
    /// the order of the refusals.
    #[inline(always)]
    fn admit(&mut self, entry: &EntryRef<'_>) -> Result<(), Fault>
        ensures same { self.new.memory.hub ≡ self.old.memory.hub }
        ensures ok { OnOk result (Takes self.new.memory entry.now) }
        ensures rules { StepRules self.old.memory entry.now self.new.memory result }
        ensures short { self.new.short ≡ self.old.short }
    {
        if is_full(&entry.step, self.count, self.terms.limit) {
            return Err(Fault::JournalFull);
        }
        if let Some(fault) = self.machine.refusal(entry.pid) {
            return Err(fault);
        }
        if grows(&entry.step, self.places) {
            let more = room_for(self.places, self.terms.head.procs);
            let Ok(()) = self.entries.reserve_more(more) else {
                return Err(Fault::NoMemory);
            };
        }
        Ok(())
    }
}
