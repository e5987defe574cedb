//! A place that entries are read into, one after another.
//!
//! It keeps the room for a call's cases from one entry to the next: a step that is no call sets only what it is, and a
//! call only the cases that it has.

ghost use Rattle.std.specs.Prelude.{◌≡◌, ◌∷◌, [], false};
ghost use Rattle.hub_base.specs.Lines.{call};
ghost use Rattle.hub_base.specs.Notation.{exit};
ghost use Rattle.hub_base.specs.Reading.{is_exit};
ghost use Rattle.hub_text.specs.Place.{step_in};

use hub_base::{Case, CaseSlice, Cases, Entry, EntryRef, Pid, Step};
use std::marker::Model;

/// A place for a step.
#[derive(Drop)]
pub(crate) struct StepPlace {
    /// The step without its cases.
    pub(crate) bare: Step<()>,
    /// Its cases where it is a call, and else those of some call before it.
    pub(crate) cases: Cases,
}

impl StepPlace {
    /// Makes it a call of this case alone, without default and with word 0.
    pub(crate) fn set_call(&mut self, case: Case)
        ensures { step_in self.new ≡ call (case ∷ []) false 0 }
    {
        self.cases.clear();
        self.cases.push(case);
        self.bare = Step::Call {
            cases: (),
            default: false,
            word: 0,
        };
    }
}

/// A place that entries are read into, one after another. To a contract it is the entry that stands there. It takes some
/// 650 bytes, which are set only when it is made, so a loop over entries has one.
#[derive(Drop)]
pub struct EntryPlace {
    /// Whose step it is.
    pub(crate) pid: Pid,
    /// The step.
    pub(crate) step: StepPlace,
}

impl Model for EntryPlace {
    ghost use Rattle.hub_base.specs.Entry.{Entry};
    ghost use Rattle.hub_text.specs.Place.{step_in};

    ghost Value = { Entry };

    ghost view = { λ place. record { pid = place.pid; step = step_in place.step } };
}

impl EntryPlace {
    /// A place in which an exit of process 0 stands.
    pub fn new() -> EntryPlace
        ensures { result ≡ exit 0 }
    {
        EntryPlace {
            pid: Pid(0),
            step: StepPlace {
                bare: Step::Exit,
                cases: Cases::new(),
            },
        }
    }

    /// Whose step it is.
    #[inline(always)]
    pub fn pid(&self) -> Pid
        ensures { result ≡ self.now.pid }
    {
        self.pid
    }

    /// The entry that stands there, whose cases stay where they are.
    #[inline(always)]
    pub fn entry(&self) -> EntryRef<'_>
        ensures { result ≡ self.now }
    {
        Entry {
            pid: self.pid,
            step: self.step.bare.with_cases(CaseSlice::of(&self.step.cases)),
        }
    }

    /// Whether an exit stands there. An exit counts towards no limit.
    #[inline(always)]
    pub fn is_exit(&self) -> bool
        ensures { result ≡ is_exit self.now.step }
    {
        matches!(self.step.bare, Step::Exit)
    }
}
