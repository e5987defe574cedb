//! The answers that wait for processes.
//!
//! They hear the events of a step. The first is the answer to the step, and whatever waited for its caller is dropped. Each that
//! follows ends the call of a process, and waits in that process's place until it is picked up.

ghost use Rattle.std.specs.Prelude.{◌≡◌, ◌<◌, ◌↔◌, IsTrue, List, None, Some, length, slice_set};
ghost use Rattle.hub_base.specs.Entry.{Entry};
ghost use Rattle.hub_base.specs.Runs.{moves, state};
ghost use Rattle.hub_base.specs.Steps.{refusal};
ghost use Rattle.hub_base.specs.declared.head.Head.{Head};
ghost use Rattle.hub_live.specs.Locked.{answer_for, AreReplies};
ghost use Rattle.hub_live.specs.Answers.{begun, no_answers, without_answer_for, hears_all, AnswersView, Heard};

use arrayvec::ArrayVec;
use hub_base::{Event, Hears, MOST_PROCS, Pid};
use std::marker::Model;

/// Processes of a hub.
pub type Pids = ArrayVec<Pid, MOST_PROCS>;

/// The answers that wait, and what the last step told.
#[derive(Drop)]
pub struct Answers {
    /// The answer that waits for each process, by its number.
    waiting: [Option<Event>; MOST_PROCS],
    /// What the last step that was heard was answered; before the first, that process 0 is done.
    last: Event,
    /// Whether the step that is being made was answered.
    told: bool,
    /// Whose calls the last step that was made ended.
    ended: Pids,
}

impl Model for Answers {
    ghost use Rattle.std.specs.Prelude.{◌≡◌, length};
    ghost use Rattle.hub_base.specs.declared.limits.TheConstants.{MOST_PROCS};
    ghost use Rattle.hub_live.specs.Answers.{AnswersView};

    ghost Value = { AnswersView };

    ghost view = { λ a. record { waiting = a.waiting; last = a.last; told = a.told; ended = a.ended.items } };

    ghost invariant = { λ a. length a.waiting ≡ MOST_PROCS };
}

/// Puts an answer into the place of its process, where it has one.
#[inline(always)]
fn put(waiting: &mut [Option<Event>], answer: Event)
    ensures { waiting.new ≡ slice_set waiting.old answer.pid.0 (Some answer) }
{
    let place = usize::from(answer.pid.0);
    if place < waiting.len() {
        waiting[place] = Some(answer);
    }
}

/// Empties the place of a process, where there is such a place. Mostly it is empty, and to look takes one load in place of five stores.
#[inline(always)]
fn clear(waiting: &mut [Option<Event>], pid: Pid)
    ensures { waiting.new ≡ slice_set waiting.old pid.0 None }
{
    let place = usize::from(pid.0);
    if place < waiting.len() && waiting[place].is_some() {
        waiting[place] = None;
    }
}

impl Answers {
    /// None waits.
    #[tactic(auto, using(crate::proofs::Locks::none_replies))]
    pub fn new() -> Answers
        ensures value { result ≡ no_answers }
        ensures replies { (h : Head) (es : List Entry) → AreReplies h es result.waiting }
    {
        Answers {
            waiting: [None; MOST_PROCS],
            last: Event::default(),
            told: false,
            ended: Pids::new(),
        }
    }

    /// Begins a step: the next event that is heard is its answer. Until then the answer before stays.
    #[inline(always)]
    #[tactic(auto, using(crate::proofs::Hearing::heard_so))]
    pub fn begin(&mut self)
        ensures value { self.new ≡ begun self.old }
        // What is so once the events of a step were heard.
        ensures heard { (h : Head) (es : List Entry) (e : Entry) (now : AnswersView) → refusal (state h es) e.pid ≡ None
            → now ≡ hears_all self.new (moves (state h es) e).events → Heard self.old h es e now }
    {
        self.told = false;
    }

    /// What the last step that was heard was answered; before the first, that process 0 is done.
    #[inline(always)]
    pub fn last(&self) -> &Event
        ensures { result.now ≡ self.now.last }
    {
        &self.last
    }

    /// Takes out the answer that waits for a process. `None` where none does, and where there is no such process.
    pub fn take(&mut self, pid: Pid) -> Option<Event>
        ensures answer { result ≡ answer_for self.old.waiting pid.0 }
        ensures taken { self.new ≡ without_answer_for self.old pid.0 }
    {
        let place = usize::from(pid.0);
        if place < self.waiting.len() {
            self.waiting[place].take()
        } else {
            None
        }
    }

    /// Whether the last step that was made ended any call. Mostly none did.
    pub fn has_ended(&self) -> bool
        ensures { IsTrue result ↔ 0 < length self.now.ended }
    {
        !self.ended.is_empty()
    }

    /// Whose calls the last step that was made ended.
    pub fn ended(&self) -> Pids
        ensures { result.items ≡ self.now.ended }
    {
        let mut pids = Pids::new();
        match pids.try_extend_from_slice(self.ended.as_slice()) {
            Ok(()) => pids,
            Err(_full) => unreachable!(),
        }
    }
}

impl Hears for Answers {
    ghost use Rattle.std.proofs.Common.{◌∙◌, ap, refl, sym};
    ghost use Rattle.std.proofs.lemmas.List.Sums.{fold-append};
    ghost use Rattle.hub_live.specs.Answers.{hears, hears_all, room_by};

    ghost heard = { λ old told new. new ≡ hears_all old told };

    ghost room = { λ a. room_by a.ended a.told };

    ghost begins = { λ a. refl };

    ghost goes_on = { λ a b c xs ys first then.
        then ∙ ap (λ m. hears_all m ys) first ∙ sym (fold-append hears a xs ys) };

    #[inline(always)]
    fn hear(&mut self, event: Event) {
        if self.told {
            put(&mut self.waiting, event);
            self.ended.push(event.pid);
        } else {
            clear(&mut self.waiting, event.pid);
            self.ended.clear();
            self.last = event;
            self.told = true;
        }
    }
}
