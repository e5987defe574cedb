//! What belongs to a process.

ghost use Rattle.std.specs.Prelude.{◌≡◌};
ghost use Rattle.hub_base.specs.declared.value.Pid.{Pid as Process};

use crate::Pid;

/// What belongs to one process, as the seat of a live hub does.
pub trait HasPid {
    /// The number of the process.
    ghost pid_of: { Self → Process };

    /// The number of the process.
    fn pid(&self) -> Pid
        ensures { result ≡ pid_of self.now };
}
