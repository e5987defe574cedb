//! Alike states: what answers alike whatever follows.

ghost use Rattle.hub_chapters.specs.Alike.{AlikeLaw};

use hub_base::{Entry, Head};

/// Two hubs of one head that have the same processes gone, the same calls waiting, and ports of the same
/// capacities and buffers, closed where the other's are, give the same answers to whatever follows. What
/// was received before makes no difference.
pub fn alike_states_go_on(head: Head, before: &[Entry], other: &[Entry], later: &[Entry])
    ensures { AlikeLaw head before.now other.now later.now }
{}
