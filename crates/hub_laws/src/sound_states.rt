//! States: a receiver waits only where the buffer is empty, a sender only where it is full, and nobody
//! on a closed port.

ghost use Rattle.hub_base.specs.Runs.{state};
ghost use Rattle.hub_laws.specs.States.{StateLaws};

use hub_base::{Entry, Head};

/// Every state that a run reaches is sound.
pub fn states_are_sound(head: Head, entries: &[Entry])
    ensures { StateLaws (state head entries.now) }
{}
