//! Calls: a select completes at most one of its cases.

ghost use Rattle.hub_laws.specs.Once.{OnceLaw};

use hub_base::{Entry, Head};

/// Each admitted call has at most one event besides `Parked`, and this event ends it.
pub fn calls_end_once(head: Head, entries: &[Entry])
    ensures { OnceLaw head entries.now }
{}
