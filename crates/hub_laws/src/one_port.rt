//! Ports: which channel one entry can write.

ghost use Rattle.hub_laws.specs.OnePort.{OnePortLaw};

use hub_base::{Entry, Head};

/// One entry writes the channel of at most one port, which its answer names, and none where the case
/// that fired found its port closed.
pub fn one_port_moves(head: Head, before: &[Entry], entry: &Entry)
    ensures { OnePortLaw head before.now entry.now }
{}
