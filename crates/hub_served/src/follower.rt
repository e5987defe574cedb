//! A hub that follows a journal, with the answers that wait.
//!
//! Both hubs have the same edition, and as many processes. As long as nothing has diverged, what the one has made is a
//! beginning of what the other has.

ghost use Rattle.std.specs.Prelude.{◌≡◌, ◌≤◌, ℕ, IfOk, IfErr, IfSome, IfNone, None, Some, Err, true, length, slice_get};
ghost use Rattle.hub_base.specs.Head.{AreOf, is_of};
ghost use Rattle.hub_base.specs.declared.limits.TheConstants.{MOST_BYTES};
ghost use Rattle.hub_core.specs.HubView.{opened_hub};
ghost use Rattle.hub_laws.specs.Journals.{IsLegal};
ghost use Rattle.hub_live.specs.Locked.{IsReplyTo, answer_for, none_waits, without_answer};
ghost use Rattle.hub_cut.specs.Faults.{IsNotLegal};
ghost use Rattle.hub_story.specs.Clock.{clock_of};
ghost use Rattle.hub_served.specs.Follow.{FollowsAnew, FollowsStep, IsAdmitted, IsBeginning, IsDue, IsFree, IsOfIts, diverged_by, next_of, number_of, step_of, with_locked, with_word};
ghost use Rattle.hub_served.specs.Stands.{Passes, PassesGiven, Stands, given_of, word_of};
ghost use Rattle.hub_served.specs.declared.not_made.NotMade.TheVariants.{Diverged, NotYet};

use crate::NotMade;
use crate::given::Given;
use hub_base::{CaseSlice, Entry, EntryRef, Event, NoMemory, Pid, Step, StepRef};
use hub_core::{CaseRoom, Hub, ShortEntries, ShortHub};
use hub_cut::{ChainFault, is_same_entry, read_hub};
use hub_live::under_lock::Locked;
use hub_story::clock_of;
use std::alloc::Global;
use std::marker::Model;

/// What a hub does once it has diverged from the journal that it follows, and once it has made all of it.
#[derive(Clone, Copy, Debug, PartialEq, Eq)]
pub enum AfterDivergence {
    /// It makes any step, as a hub that follows nothing.
    GoesOn,
    /// It makes none.
    Ends,
}

/// How a step stands to the journal, where its process's steps are admitted and nothing has diverged.
pub(crate) enum Stand {
    /// It is next. The journal has it with this choice word, if it is a call.
    Next(u64),
    /// Its turn may come.
    Early,
    /// The process's next step is another, of this number.
    Other(u32),
    /// All of the journal is made.
    Over,
}

/// The choice word of a call; 0 for any other step.
fn word_of(step: &StepRef<'_>) -> u64
    ensures { result ≡ word_of step.now }
{
    match step {
        Step::Call { word, .. } => *word,
        _ => 0,
    }
}

/// This entry, with that choice word in place of its own if it is a call.
fn with_word<'a>(entry: &EntryRef<'a>, word: u64) -> EntryRef<'a>
    ensures { result ≡ with_word word entry.now }
{
    let step = match &entry.step {
        Step::Call { cases, default, .. } => Step::Call {
            cases: CaseSlice::few(cases.as_slice()),
            default: *default,
            word,
        },
        _ => entry.step.with_cases(CaseSlice::few(&[])),
    };
    EntryRef {
        pid: entry.pid,
        step,
    }
}

/// The choice word with which this entry stands at this place, if it does. The cases that stand there are put in the room for them.
fn word_at(
    given: &ShortEntries,
    place: usize,
    entry: &EntryRef<'_>,
    room: &mut CaseRoom,
) -> Option<u64>
    ensures found { IfSome result (λ word. slice_get given.now place ≡ Some (with_word word entry.now)) }
    ensures none { IfNone result ((word : ℕ) → ¬ (slice_get given.now place ≡ Some (with_word word entry.now))) }
{
    if given.has_plain(place, entry) {
        return Some(word_of(&entry.step));
    }
    let there = given.get(place, room)?;
    let word = word_of(&there.step);
    if is_same_entry(&there, &with_word(entry, word)) {
        Some(word)
    } else {
        None
    }
}

/// How the step stands to the journal.
fn stand_in(given: &Given, entry: &EntryRef<'_>, room: &mut CaseRoom) -> Stand
    requires few { length given.now.entries ≤ MOST_BYTES }
    ensures { Stands given.now entry.now result }
{
    let made = given.made();
    if made >= given.entries().len() {
        return Stand::Over;
    }
    match given.turn(entry.pid) {
        None => Stand::Early,
        Some(place) => match word_at(given.entries(), place, entry, room) {
            None => Stand::Other(place as u32 + 1),
            Some(word) if place == made => Stand::Next(word),
            Some(_) => Stand::Early,
        },
    }
}

/// The hub makes the step or refuses it.
fn pass(hub: &mut Locked, entry: &EntryRef<'_>) -> Result<Event, NotMade>
    requires fits { is_of hub.old.hub.terms.head.edition entry.now.step ≡ true }
    ensures { Passes hub.old entry.now hub.new result }
{
    hub.step(entry).map_err(NotMade::Refused)?;
    Ok(*hub.answer())
}

/// A hub that follows a journal, and for each process an answer that may wait to be picked up.
#[derive(Drop)]
pub struct Follower {
    /// The hub, and the answers that wait.
    hub: Locked,
    /// The journal that is followed. Until the hub diverges, as much of it is made as the hub has made.
    given: Given,
    /// What comes after a divergence.
    after: AfterDivergence,
    /// The number of the step at which it diverged, if it did.
    diverged: Option<u32>,
    /// The step that was the first to be a divergence, if one was.
    asked: Option<Entry>,
    /// Where the cases of the journal's next step are put.
    room: CaseRoom,
}

impl Model for Follower {
    ghost use Rattle.hub_served.specs.Follow.{FollowView, follow_view};
    ghost use Rattle.hub_served.specs.Stands.{Follows};

    ghost Value = { FollowView };

    ghost view = { λ l. follow_view l.hub l.given.entries l.after l.diverged l.asked };

    ghost invariant = { λ l. Follows (follow_view l.hub l.given.entries l.after l.diverged l.asked) l.given };
}

impl Follower {
    /// A hub at which nothing has happened, that follows the journal of this text: its edition, number of processes and
    /// steps. The hub has no limit but the greatest, `MOST_STEPS`.
    ///
    /// It is refused if the text is malformed, if one of its steps is not admitted, and if memory is refused: by `Text`,
    /// `NotAdmitted` and `NoMemory`.
    #[tactic(auto, using(crate::proofs::Keeping::opened))]
    pub fn open(alloc: Global, text: &[u8], after: AfterDivergence) -> Result<Follower, ChainFault>
        ensures ok { IfOk result (λ l. FollowsAnew text.now after l) }
        ensures refused { IfErr result (IsNotLegal text.now) }
    {
        let given = read_hub(alloc, text)?;
        let terms = given.terms();
        let Ok(hub) = Hub::open(alloc, terms.head.procs, terms.limit, terms.head.edition) else {
            return Err(ChainFault::NoMemory);
        };
        match Follower::of(alloc, hub, given, after) {
            Ok(follower) => Ok(follower),
            Err(NoMemory) => Err(ChainFault::NoMemory),
        }
    }

    /// This hub, at which nothing has happened, follows the journal of that one, which ends.
    fn of(
        alloc: Global,
        hub: Hub,
        given: ShortHub,
        after: AfterDivergence,
    ) -> Result<Follower, NoMemory>
        requires anew { hub.memory.hub ≡ opened_hub given.memory.hub.terms }
        requires few { length given.memory.hub.journal ≤ MOST_BYTES }
        ensures locked { IfOk result (λ l. l.locked ≡ none_waits hub.memory.hub) }
        ensures given { IfOk result (λ l. l.given ≡ given.memory.hub.journal) }
        ensures after { IfOk result (λ l. l.after ≡ after) }
        ensures none { IfOk result (λ l. l.diverged ≡ None) }
        ensures unasked { IfOk result (λ l. l.asked ≡ None) }
    {
        given.journal_is_legal();
        let journal = given.into_short_journal(alloc)?;
        Ok(Follower {
            hub: Locked::of(hub),
            given: Given::of(alloc, journal)?,
            after,
            diverged: None,
            asked: None,
            room: CaseRoom::new(),
        })
    }

    /// Makes a step that the hub's edition has, as `Locked::step` does, if it is the next of the journal, and gives its answer.
    /// A call may come with any choice word: it is made with the journal's. After a divergence, and once all of the journal is
    /// made, the hub makes any step as it comes, or none, as the opening said.
    ///
    /// A step of a process whose steps are not admitted now is refused as `Locked::step` refuses it.
    pub fn step(&mut self, entry: &EntryRef<'_>) -> Result<Event, NotMade>
        requires fits { is_of self.old.locked.hub.terms.head.edition entry.now.step ≡ true }
        ensures rules { FollowsStep self.old entry.now self.new result }
    {
        if self.hub.refusal(entry.pid).is_some() {
            return self.refuse(entry);
        }
        if self.diverged.is_some() {
            return self.step_freely(entry);
        }
        match self.stand(entry) {
            Stand::Next(word) => self.step_next(entry, word),
            Stand::Early => self.not_yet(),
            Stand::Other(number) => self.diverge(entry, number),
            Stand::Over => self.step_freely(entry),
        }
    }

    /// How the step stands to the journal that it follows.
    fn stand(&mut self, entry: &EntryRef<'_>) -> Stand
        requires following { self.old.diverged ≡ None }
        ensures stands { Stands (given_of self.old) entry.now result }
        ensures unchanged { self.new ≡ self.old }
    {
        stand_in(&self.given, entry, &mut self.room)
    }

    /// The hub refuses the step.
    fn refuse(&mut self, entry: &EntryRef<'_>) -> Result<Event, NotMade>
        requires fits { is_of self.old.locked.hub.terms.head.edition entry.now.step ≡ true }
        requires refused { ¬ IsAdmitted self.old entry.now }
        ensures rules { FollowsStep self.old entry.now self.new result }
    {
        pass(&mut self.hub, entry)
    }

    /// Makes the next step of the journal, which is this one with that choice word.
    fn step_next(&mut self, entry: &EntryRef<'_>, word: u64) -> Result<Event, NotMade>
        requires fits { is_of self.old.locked.hub.terms.head.edition entry.now.step ≡ true }
        requires due { IsDue self.old (with_word word entry.now) }
        ensures rules { FollowsStep self.old entry.now self.new result }
    {
        if word == word_of(&entry.step) {
            return self.step_given(entry);
        }
        self.step_given(&with_word(entry, word))
    }

    /// Makes the next step of the journal, which is this one.
    fn step_given(&mut self, entry: &EntryRef<'_>) -> Result<Event, NotMade>
        requires fits { is_of self.old.locked.hub.terms.head.edition entry.now.step ≡ true }
        requires due { IsDue self.old entry.now }
        ensures { PassesGiven self.old entry.now self.new result }
    {
        let answer = pass(&mut self.hub, entry)?;
        self.given.advance();
        Ok(answer)
    }

    /// Makes a step that is admitted, where the hub goes on freely, or else none.
    fn step_freely(&mut self, entry: &EntryRef<'_>) -> Result<Event, NotMade>
        requires fits { is_of self.old.locked.hub.terms.head.edition entry.now.step ≡ true }
        requires admitted { IsAdmitted self.old entry.now }
        requires free { IsFree self.old }
        ensures rules { FollowsStep self.old entry.now self.new result }
    {
        let number = self.number();
        match self.after {
            AfterDivergence::Ends => self.diverge(entry, number),
            AfterDivergence::GoesOn => {
                let answer = pass(&mut self.hub, entry)?;
                self.diverged = Some(number);
                Ok(answer)
            }
        }
    }

    /// The number of the step at which it diverged, or of the one behind the journal's last.
    fn number(&self) -> u32
        ensures { result ≡ number_of self.now }
    {
        match self.diverged {
            Some(number) => number,
            None => self.given.entries().len() as u32 + 1,
        }
    }

    /// The step's turn has not come.
    fn not_yet(&mut self) -> Result<Event, NotMade>
        ensures unchanged { self.new ≡ self.old }
        ensures told { result ≡ Err NotYet }
    {
        Err(NotMade::NotYet)
    }

    /// It diverges at the step of this number, as this one is asked for.
    fn diverge(&mut self, entry: &EntryRef<'_>, number: u32) -> Result<Event, NotMade>
        requires fits { is_of self.old.locked.hub.terms.head.edition entry.now.step ≡ true }
        ensures diverged { self.new ≡ diverged_by entry.now number self.old }
        ensures told { result ≡ Err (Diverged number) }
    {
        self.diverged = Some(number);
        if self.asked.is_none() {
            self.asked = Some(entry.to_owned());
        }
        Err(NotMade::Diverged(number))
    }

    /// Whose step is the next of the journal. None once it has diverged, and once all is made.
    pub fn next(&self) -> Option<Pid>
        ensures { result ≡ next_of self.now }
    {
        match self.diverged {
            None => self.given.entries().pid_at(self.hub.len()),
            Some(_) => None,
        }
    }

    /// The number of the step at which it diverged, from 1, if it did. As long as it did not, what it has made is a
    /// beginning of the journal that it follows.
    pub fn diverged(&self) -> Option<u32>
        ensures number { result ≡ self.now.diverged }
        ensures begins { self.now.diverged ≡ None → IsBeginning self.now }
    {
        self.diverged
    }

    /// The step that was the first to be a divergence. None as long as `step` has told of no divergence.
    pub fn asked(&self) -> Option<Entry>
        ensures asked { result ≡ self.now.asked }
        ensures fits { IfSome result (IsOfIts self.now) }
    {
        self.asked.as_ref().map(Entry::copy)
    }

    /// A process's next step of the journal, and its number, from 1. None once the hub has diverged, and where the journal has no
    /// further step of the process.
    pub fn step_of(&self, pid: Pid) -> Option<(u32, Entry)>
        ensures { result ≡ step_of self.now pid }
    {
        let None = self.diverged else {
            return None;
        };
        let place = self.given.turn(pid)?;
        let entry = self.given(place)?;
        Some((place as u32 + 1, entry))
    }

    /// The entry at this place of the journal that is followed, counted from 0; `None` behind the last. The journal is legal:
    /// each of its entries is admitted where it stands.
    pub fn given(&self, place: usize) -> Option<Entry>
        ensures entry { result ≡ slice_get self.now.given place }
        ensures legal { IsLegal self.now.locked.hub.terms.head self.now.given }
        ensures fits { AreOf self.now.locked.hub.terms.head.edition self.now.given }
    {
        let mut room = CaseRoom::new();
        let entry = self.given.entries().get(place, &mut room)?;
        Some(entry.to_owned())
    }

    /// The clock of the journal that is followed, if it has one: the process that waits on port 0 while no call has a deadline,
    /// and cancels calls whose deadlines have passed.
    pub fn clock(&self) -> Option<Pid>
        ensures { result ≡ clock_of self.now.locked.hub.terms.head self.now.given }
    {
        clock_of(self.hub.head(), self.given.entries())
    }

    /// Takes out the answer that waits for a process, as `Locked::take` does.
    pub fn take(&mut self, pid: Pid) -> Option<Event>
        ensures answer { result ≡ answer_for self.old.locked.answers pid.0 }
        ensures taken { self.new ≡ with_locked (without_answer self.old.locked pid.0) self.old }
        ensures reply { IfSome result (IsReplyTo self.old.locked.hub.terms.head pid.0 self.old.locked.hub.journal) }
        ensures none { IfNone result (self.new ≡ self.old) }
    {
        self.hub.take(pid)
    }

    /// The hub and the answers that wait, to look at.
    pub fn locked(&self) -> &Locked
        ensures { result.now ≡ self.now.locked }
    {
        &self.hub
    }
}
