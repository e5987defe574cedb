//! Journals: the admitted entries of a run, what they alone give, and how many they can be.

ghost use Rattle.hub_laws.specs.Journals.{Begins, Grows, JournalLaw};
ghost use Rattle.hub_laws.specs.Limits.{LimitsLaw};

use hub_base::{Entry, Head};

/// The admitted entries of a run are a legal journal, with the run's state and, but for the faults of
/// other entries, its events.
pub fn journals_are_legal(head: Head, entries: &[Entry])
    ensures { JournalLaw head entries.now }
{}

/// An entry does after the journal what it does after the run, and joins the journal where it is
/// admitted.
pub fn journals_grow(head: Head, before: &[Entry], entry: &Entry)
    ensures { Grows head before.now entry.now }
{}

/// A beginning of a legal journal is legal, and the entry that follows it is admitted; with one that
/// is admitted a legal journal stays legal.
pub fn journals_begin(head: Head, before: &[Entry], later: &[Entry])
    ensures { Begins head before.now later.now }
{}

/// A journal holds at most one exit of each process, and one more for each start of it: so at most as many entries
/// more than steps as there are processes and starts. In the first two editions there are no starts.
pub fn journals_are_short(head: Head, entries: &[Entry])
    ensures { LimitsLaw head entries.now }
{}
