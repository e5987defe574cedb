//! Closed ports: no send completes on one, and receivers drain its buffer, then learn of the close.

ghost use Rattle.hub_laws.specs.AfterClose.{AfterCloseLaw, NeverOpensLaw};

use hub_base::{Entry, Head, Pid, Port};

/// After a close, whatever follows until the port is opened again, no case on the port is sent, and its receivers get
/// what the buffer then held, in order, and from then on `Drained`. In the first two editions no port is opened again.
pub fn closed_ports_drain(head: Head, before: &[Entry], pid: Pid, port: Port, later: &[Entry])
    ensures closed { AfterCloseLaw head before.now pid port later.now }
    ensures never { NeverOpensLaw head before.now port later.now }
{}
