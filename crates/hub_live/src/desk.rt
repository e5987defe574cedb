//! What lies under the lock: the locked hub, and the hub's own seat of the table, which has seen
//! the whole journal.
//!
//! A step joins the caller's seat to the hub's before the journal changes and parts it afterwards,
//! since a store is judged by what the seat that stores knows.

ghost use Rattle.std.specs.Prelude.{◌≡◌, ◌≤◌, ◌<◌, ◌↔◌, IsTrue, length, Some, None, Ok, true, IfOk, IfSome, IfNone, OnSome, All};
ghost use Rattle.std.specs.Result.{result_and};
ghost use Rattle.hub_live.specs.Prelude.{AreOf, is_of, IsPrefix, steps_of, IsLegal, number_of, port_changed_by, state_of, mark_at};
ghost use Rattle.hub_live.specs.Prelude.{answer_for, without_answer, IsReplyTo, IsHistory, IsFree, own_of, IsDesk};
ghost use Rattle.hub_live.specs.Prelude.{ServesSeat, StandsIn};

use crate::answers::Pids;
use crate::locked::Locked;
use crate::mark::mark_of;
use crate::name::HubName;
use crate::rule::Token;
use crate::seat::{InnerSeat, Seat};
use crate::words::Words;
use hub_base::{EntryRef, Event, Fault, Journal, MOST_STEPS, NoMemory, Pid, Port, StepRef, What};
use hub_core::{ShortJournal, port_changed};
use std::alloc::Global;
use std::marker::{Model, PhantomData};

/// The locked hub, and the hub's own seat. To a contract it is the locked hub.
#[derive(Drop)]
pub struct Desk<K: HubName> {
    /// The hub, and the answers that wait.
    locked: Locked,
    /// The seat of the table that is the hub's own.
    token: Token,
    /// Which hub it is.
    of: PhantomData<K>,
}

impl<K: HubName> Model for Desk<K> {
    ghost use Rattle.hub_live.specs.Locked.{LockedView};

    ghost Value = { LockedView };

    ghost use Rattle.hub_live.specs.Seated.{IsDesk};

    ghost view = { λ d. d.locked };

    ghost invariant = { λ d. IsDesk K.name d.locked d.token };
}

/// The port that a step with this answer changed, port 0 for none.
fn changed(step: &StepRef<'_>, answer: &What) -> Port
    ensures { result.0 ≡ number_of (port_changed_by step.now answer.now) }
{
    port_changed(step, answer).unwrap_or(Port(0))
}

/// The mark of a port, 0 where it is not made.
fn mark_at(locked: &Locked, port: Port) -> u64
    requires { IsHistory locked.now.hub.terms locked.now.hub.journal }
    ensures { result ≡ mark_at (state_of locked.now.hub) port }
{
    match locked.look(port) {
        Some(look) => mark_of(&look.counts),
        None => 0,
    }
}

impl<K: HubName> Desk<K> {
    pub(crate) fn of(locked: Locked, token: Token) -> Desk<K>
        requires { IsDesk K.name locked token }
        ensures { result ≡ locked }
    {
        Desk {
            locked,
            token,
            of: PhantomData,
        }
    }

    /// Makes and publishes one step of the seat's process, one that the hub's edition has; `answer` then gives its answer. The seat
    /// has then seen the journal. Takes no lock.
    ///
    /// Refused by `JournalFull`, `Gone` and `NoMemory` alone, tested in this order, with no entry made.
    pub fn step(
        &mut self,
        words: &Words<K>,
        seat: &mut InnerSeat,
        entry: &EntryRef<'_>,
    ) -> Result<(), Fault>
        requires hub { seat.old.hub ≡ K.name }
        requires pid { seat.old.pid ≡ entry.now.pid }
        requires free { IsFree seat.old }
        requires fits { is_of K.name.terms.head.edition entry.now.step ≡ true }
        ensures rules { ServesSeat K.name self.old seat.old entry.now self.new seat.new (result_and result (Ok self.new.last)) }
    {
        let Some(mine) = seat.token.take() else {
            unreachable!()
        };
        words.join(&mut self.token, mine);
        match self.locked.step(entry) {
            Ok(()) => {
                let port = changed(&entry.step, &self.locked.answer().what);
                let mark = mark_at(&self.locked, port);
                words.publish(&mut self.token, usize::from(port.0), mark, entry);
                seat.token = Some(words.split(&mut self.token));
                Ok(())
            }
            Err(fault) => {
                seat.token = Some(words.split(&mut self.token));
                Err(fault)
            }
        }
    }

    /// Takes out the answer that waits for the seat's process, if one does; the seat has then seen
    /// the journal. Takes no lock.
    pub fn pick(&mut self, words: &Words<K>, seat: &mut InnerSeat) -> Option<Event>
        requires hub { seat.old.hub ≡ K.name }

        ensures same { (seat.new.hub ≡ seat.old.hub) × (seat.new.pid ≡ seat.old.pid) }
        ensures answer { result ≡ answer_for self.old.answers seat.old.pid.0 }
        ensures taken { self.new ≡ without_answer self.old seat.old.pid.0 }
        ensures none { IfNone result ((self.new ≡ self.old) × (seat.new ≡ seat.old)) }

        ensures told { IfSome result (λ x.
            IsReplyTo K.name.terms.head seat.old.pid.0 seat.new.seen x) }
        ensures seen { OnSome result (seat.new.seen ≡ self.new.hub.journal) }
        ensures history { OnSome result (IsHistory K.name.terms seat.new.seen) }
        ensures begins { OnSome result (IsPrefix seat.old.seen seat.new.seen) }
        ensures own { OnSome result (own_of seat.new ≡ own_of seat.old) }
    {
        let answer = self.locked.take(seat.pid)?;
        let Some(mine) = seat.token.take() else {
            unreachable!()
        };
        seat.token = Some(words.meet(&mut self.token, mine));
        Some(answer)
    }

    /// What the last step that was made was answered.
    pub fn answer(&self) -> &Event
        ensures { result.now ≡ self.now.last }
    {
        self.locked.answer()
    }

    /// Whether the last step that was made ended any call.
    pub(crate) fn has_ended(&self) -> bool
        ensures { IsTrue result ↔ 0 < length self.now.ended }
    {
        self.locked.has_ended()
    }

    /// Whose calls the last step ended, where it was made.
    pub(crate) fn ended(&self) -> Pids
        ensures { result.items ≡ self.now.ended }
    {
        self.locked.ended()
    }

    /// Shows that the journal begins with what the seat has seen, and that its process asked nothing
    /// more in it.
    pub(crate) fn compare(&mut self, words: &Words<K>, seat: InnerSeat)
        requires hub { seat.hub ≡ K.name }
        requires free { IsFree seat }
        ensures same { self.new ≡ self.old }
        ensures stands { StandsIn seat self.new.hub.journal }
    {
        let InnerSeat { pid: _, token } = seat;
        let Some(mine) = token else { unreachable!() };
        words.meet(&mut self.token, mine);
    }

    /// The same of each of these seats.
    pub(crate) fn compare_all(&mut self, words: &Words<K>, seats: Vec<Seat>)
        requires { All (λ s. s.hub ≡ K.name) seats.items }
        ensures same { self.new ≡ self.old }
        ensures stand { All (λ s. StandsIn s self.new.hub.journal) seats.items }
    {
        for seat in seats {
            self.compare(words, seat.into_inner());
        }
    }

    /// The journal. Answers that wait are dropped.
    pub(crate) fn into_journal(self) -> Journal
        ensures journal { result ≡ record { head = K.name.terms.head; entries = self.hub.journal } }
        ensures legal { IsLegal K.name.terms.head self.hub.journal }
        ensures fits { AreOf K.name.terms.head.edition self.hub.journal }
        ensures few { steps_of self.hub.journal ≤ K.name.terms.limit }
    {
        self.locked.into_journal()
    }

    /// The journal, kept short. An `Err` is memory. Answers that wait are dropped.
    pub(crate) fn into_short_journal(self, alloc: Global) -> Result<ShortJournal, NoMemory>
        ensures journal { IfOk result (λ j. j ≡ record { head = K.name.terms.head; entries = self.hub.journal }) }
        ensures legal { IsLegal K.name.terms.head self.hub.journal }
        ensures fits { AreOf K.name.terms.head.edition self.hub.journal }
        ensures few { steps_of self.hub.journal ≤ K.name.terms.limit }
    {
        self.locked.into_short_journal(alloc)
    }
}
