//! Replies: what a process was told last.

ghost use Rattle.hub_laws.specs.Replies.{RepliedLaw, RepliesLaw};

use hub_base::{Entry, Head, Pid};

/// Right after an admitted entry each of its events, but for `Parked`, is its process's reply, and
/// that process has no open call. All other processes have the reply that they had.
pub fn replies_come(head: Head, before: &[Entry], entry: &Entry)
    ensures { RepliedLaw head before.now entry.now }
{}

/// Entries of others do not change what a process without an open call asked and was told.
pub fn replies_stay(head: Head, before: &[Entry], pid: Pid, later: &[Entry])
    ensures { RepliesLaw head before.now pid.0 later.now }
{}
