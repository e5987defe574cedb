//! Answers: what one entry tells, and to whom.

ghost use Rattle.std.specs.Prelude.{◌≤◌, ◌+◌, length};
ghost use Rattle.hub_base.specs.Runs.{state, moves};
ghost use Rattle.hub_laws.specs.Answers.{AnswersLaw, PassedOverLaw};

use hub_base::{Entry, Head};

/// An admitted entry is answered first, and the calls that ended with it follow. Any other gives one
/// fault, and changes nothing.
pub fn entries_are_answered(head: Head, before: &[Entry], entry: &Entry)
    ensures admitted { AnswersLaw head before.now entry.now }
    ensures refused { PassedOverLaw head before.now entry.now }
{}

/// One entry tells at most one event more than there are processes.
pub fn events_fit(head: Head, before: &[Entry], entry: &Entry)
    ensures { length (moves (state head before.now) entry.now).events ≤ head.procs + 1 }
{}
