//! Checkpoints: a short journal that leads where a long one does.

ghost use Rattle.hub_chapters.specs.Checkpoint.{CheckpointLaw, OneCheckpoint};

use hub_base::{Entry, Head};

/// The checkpoint of a run is a legal journal and leads to a state alike. It has no more steps than the
/// run's journal, so it fits where that did, and few whatever the run was.
pub fn checkpoints_stand_in(head: Head, entries: &[Entry])
    ensures { CheckpointLaw head entries.now }
{}

/// Runs whose states are alike have one checkpoint. So it can be compared, entry by entry, with the
/// beginning of a chapter.
pub fn checkpoints_are_one(head: Head, entries: &[Entry], other: &[Entry])
    ensures { OneCheckpoint head entries.now other.now }
{}
