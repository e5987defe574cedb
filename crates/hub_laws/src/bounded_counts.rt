//! Counts: how many values a channel can have sent and received.

ghost use Rattle.hub_laws.specs.Counts.{CountsLaw};

use hub_base::{Entry, Head};

/// No channel has received more than it sent, or sent more than the run's admitted entries that are
/// no exits.
pub fn counts_are_bounded(head: Head, entries: &[Entry])
    ensures { CountsLaw head entries.now }
{}
