//! Why a step was not made.

use hub_base::Fault;

/// Why a hub that follows a journal did not make a step.
#[derive(Clone, Copy, Debug, PartialEq, Eq)]
pub enum NotMade {
    /// The hub refused it. Nothing has changed. The next step of the journal is refused only by `NoMemory`.
    Refused(Fault),
    /// It is the process's next step, and others come first; or the journal has no further step of the process, and some of
    /// others. Nothing has changed: ask again once the hub has made a further step.
    NotYet,
    /// The journal has another step of the process here, or has ended; or the hub has diverged before, and ended with that.
    /// The number is that of the journal's step at which it diverged, counted from 1. The hub's own journal stays as it was.
    Diverged(u32),
}
