//! Values: none is lost, doubled or reordered on its way through a channel.

ghost use Rattle.hub_laws.specs.Values.{ValuesLaw};

use hub_base::{Entry, Head};

/// The values received on a port, and then those in its buffer, are the values sent, in order of
/// completion.
pub fn values_are_kept(head: Head, entries: &[Entry])
    ensures { ValuesLaw head entries.now }
{}
