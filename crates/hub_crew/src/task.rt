//! What the threads of a crew do.

ghost use Rattle.std.specs.Prelude.{◌≡◌};

use hub_base::HasPid;

/// What the threads of a crew do, each with a seat of its own and with what they share: the same for all, by the process
/// of their seat.
pub trait Task<H, S: HasPid, R>: Copy + Send {
    /// What a thread tells in the end.
    type Report: Drop + Send;

    /// What holds of a seat before its thread begins; of every seat, where it is left out.
    ghost begins: { Self → S → Type 0 } = { λ task seat. Unit {0} };

    /// What holds of a seat and its thread's report in the end; nothing, where it is left out.
    ghost ends: { Self → S → Self.Report → Type 0 } = { λ task seat report. Unit {0} };

    /// The work of one thread. `begins` holds of the seat before it, `ends` of the seat and the
    /// report after it.
    fn perform(self, rt: &R, hub: &H, seat: &mut S) -> Self::Report
        requires { begins self seat.old }
        ensures same { S.pid_of seat.new ≡ S.pid_of seat.old }
        ensures ends { ends self seat.new result };
}

/// A seat whose thread has ended, and what the thread told.
#[derive(Drop)]
pub struct Member<S, P> {
    /// Its seat, given back.
    pub seat: S,
    /// What its task answered.
    pub report: P,
}
