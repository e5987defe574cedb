//! Received values: what one entry adds to them on each port.

ghost use Rattle.hub_laws.specs.Received.{ReceivedLaw};

use hub_base::{Entry, Head};

/// One entry adds to the values received on the port that its answer names just the values that its
/// events tell as got, and to those of any other port none.
pub fn received_values_are_told(head: Head, before: &[Entry], entry: &Entry)
    ensures { ReceivedLaw head before.now entry.now }
{}
