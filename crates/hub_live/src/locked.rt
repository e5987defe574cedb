//! A hub, and the answers that wait to be picked up: what threads share under a lock.
//!
//! Where a step ends the call of another process, the answer to that call waits in the process's place
//! until its caller takes it. Between two calls the journal is legal, a process with an open call has
//! no answer waiting, and an answer that waits is its process's reply. That the hub is what its journal
//! leads to is kept by the hub's own type.

ghost use Rattle.std.specs.Prelude.{◌≡◌, ◌<◌, ◌↔◌, IsTrue, Ok, true, length, slice_get, IfOk, IfSome, IfNone};
ghost use Rattle.std.specs.Result.{result_and};
ghost use Rattle.hub_core.specs.Looks.{look_at};
ghost use Rattle.hub_live.specs.Locked.{none_waits};
ghost use Rattle.hub_live.specs.Prelude.{AreOf, is_of, refusal, IsLegal, state_of, answer_for, IsReplyTo, ServesStep, without_answer};

use crate::answers::{Answers, Pids};
use hub_base::{EntryRef, Event, Fault, Head, Journal, Look, NoMemory, Pid, Port};
use hub_core::{CaseRoom, Hub, ShortHub, ShortJournal};
use std::alloc::Global;
use std::marker::Model;

/// A hub, and for each process an answer that may wait to be picked up.
#[derive(Drop)]
pub struct Locked {
    /// The hub, whose journal is kept short until it is asked for.
    hub: ShortHub,
    /// The answers that wait, what the last step that was made was answered, and whose calls it ended.
    answers: Answers,
}

impl Model for Locked {
    ghost use Rattle.hub_live.specs.Locked.{LockedView, IsLawful};

    ghost Value = { LockedView };

    ghost view = { λ l.
        record { hub = l.hub.memory.hub; answers = l.answers.waiting; last = l.answers.last; ended = l.answers.ended } };

    ghost invariant = { λ l. IsLawful l.hub.memory.hub l.answers.waiting };
}

impl Locked {
    /// A hub with no answer waiting. It takes no memory.
    #[tactic(auto, using(crate::proofs::Locks::lawful_none))]
    pub fn of(hub: Hub) -> Locked
        ensures { result ≡ none_waits hub.memory.hub }
    {
        // That its journal is legal is told where the journal is shown.
        let _journal = hub.entries();
        Locked {
            hub: hub.shortened(),
            answers: Answers::new(),
        }
    }

    /// Makes a step that the hub's edition has. `answer` then gives its answer, the first of its events, until the next step is
    /// made. What waited for the caller is dropped. Each event that follows, which ends a call, waits for its process, also a
    /// `Stalled` that follows the caller's own `Parked`.
    ///
    /// Refused as the hub refuses it, and then nothing changes: an exit never by `JournalFull` or
    /// `NoMemory`.
    pub fn step(&mut self, entry: &EntryRef<'_>) -> Result<(), Fault>
        requires fits { is_of self.old.hub.terms.head.edition entry.now.step ≡ true }
        ensures rules { ServesStep self.old entry.now self.new (result_and result (Ok self.new.last)) }
    {
        self.answers.begin();
        self.hub.step_heard(entry, &mut self.answers)?;
        Ok(())
    }

    /// What the last step that was made here was answered; before the first here, that process 0 is done.
    #[inline(always)]
    pub fn answer(&self) -> &Event
        ensures { result.now ≡ self.now.last }
    {
        self.answers.last()
    }

    /// Why a step of this process would be refused now: `NoProcess`, `Gone`, `Busy`, or nothing.
    pub fn refusal(&self, pid: Pid) -> Option<Fault>
        ensures { result ≡ refusal (state_of self.now.hub) pid }
    {
        self.hub.refusal(pid)
    }

    /// Takes out the answer that waits for a process: the process's reply, and the process has no open
    /// call. `None` where no answer waits for it, and where there is no such process.
    pub fn take(&mut self, pid: Pid) -> Option<Event>
        ensures answer { result ≡ answer_for self.old.answers pid.0 }
        ensures taken { self.new ≡ without_answer self.old pid.0 }
        ensures reply { IfSome result (IsReplyTo self.old.hub.terms.head pid.0 self.old.hub.journal) }
        ensures none { IfNone result (self.new ≡ self.old) }
    {
        self.answers.take(pid)
    }

    /// Whether the last step that was made ended any call. Mostly none did.
    pub fn has_ended(&self) -> bool
        ensures { IsTrue result ↔ 0 < length self.now.ended }
    {
        self.answers.has_ended()
    }

    /// Whose calls the last step that was made ended: they are to be woken. A wake is only a hint: no
    /// clause says that one comes.
    pub fn ended(&self) -> Pids
        ensures { result.items ≡ self.now.ended }
    {
        self.answers.ended()
    }

    /// The capacity and the counts of a port, or `None` for port 0 and for a port that was not made.
    pub fn look(&self, port: Port) -> Option<Look>
        ensures { result ≡ look_at (state_of self.now.hub) port }
    {
        self.hub.look(port)
    }

    /// What its journal's head lines say: its edition, and its number of processes.
    pub fn head(&self) -> Head
        ensures { result ≡ self.now.hub.terms.head }
    {
        self.hub.head()
    }

    /// How many entries the journal has.
    pub fn len(&self) -> usize
        ensures { result ≡ length self.now.hub.journal }
    {
        self.hub.len()
    }

    /// The journal's entry at this place, counted from 0; `None` behind the last. The cases of one that is kept short are put in
    /// the room for them. The journal is legal: each of its entries was admitted when it came, and is one that the edition has.
    #[inline(always)]
    pub fn entry<'a>(&'a self, place: usize, room: &'a mut CaseRoom) -> Option<EntryRef<'a>>
        ensures entry { result ≡ slice_get self.now.hub.journal place }
        ensures legal { IsLegal self.now.hub.terms.head self.now.hub.journal }
        ensures fits { AreOf self.now.hub.terms.head.edition self.now.hub.journal }
    {
        self.hub.entry(place, room)
    }

    /// The journal. Answers that wait are dropped.
    pub fn into_journal(self) -> Journal
        ensures journal { result ≡ record { head = self.hub.terms.head; entries = self.hub.journal } }
        ensures legal { IsLegal self.hub.terms.head self.hub.journal }
        ensures fits { AreOf self.hub.terms.head.edition self.hub.journal }
    {
        let Locked { hub, answers: _ } = self;
        hub.into_journal()
    }

    /// The journal, kept short. It takes memory only where some of its entries are written out; an `Err` is memory. Answers that
    /// wait are dropped.
    pub fn into_short_journal(self, alloc: Global) -> Result<ShortJournal, NoMemory>
        ensures journal { IfOk result (λ j. j ≡ record { head = self.hub.terms.head; entries = self.hub.journal }) }
        ensures legal { IsLegal self.hub.terms.head self.hub.journal }
        ensures fits { AreOf self.hub.terms.head.edition self.hub.journal }
    {
        let Locked { hub, answers: _ } = self;
        hub.into_short_journal(alloc)
    }
}
