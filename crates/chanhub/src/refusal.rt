//! Why the program did not do what it was asked for.

ghost use Rattle.std.specs.Prelude.{◌≡◌};
ghost use Rattle.hub_replay.specs.declared.fault.ReplayFault.TheVariants as replay;
ghost use Rattle.chanhub.specs.declared.refusal.Refusal.TheVariants as refusal;
ghost use Rattle.chanhub.specs.Refusals.{of_arguments, of_source, of_scenario, of_run};

use crate::words::ArgumentsFault;
use hub_base::NoMemory;
use hub_replay::{ReplayFault, SourceFault, WriteFailed};
use hub_runner::RunFault;
use hub_scenario::ScenarioFault;

/// Why the program did not do what it was asked for.
#[derive(Clone, Copy, Debug, PartialEq, Eq)]
pub enum Refusal {
    /// The program has no such command, or not with these arguments. Nothing was read or written.
    BadArguments,
    /// The journal of a run was full. Nothing was written.
    JournalFull,
    /// As a replay tells it: a read failed, or a named file can't be opened; a write failed, and a beginning of what was
    /// to be written was written; memory was refused, or the start of a thread; or the journal is malformed. But for the
    /// failed write nothing was written.
    Replay(ReplayFault),
    /// The scenario is malformed. Nothing was written. Want of memory is told as a replay tells it.
    Scenario(ScenarioFault),
}

impl From<ArgumentsFault> for Refusal {
    ghost from_gives = { λ fault given. given ≡ of_arguments fault };

    fn from(fault: ArgumentsFault) -> Refusal {
        match fault {
            ArgumentsFault::BadArguments => Refusal::BadArguments,
            ArgumentsFault::NoMemory => NoMemory.into(),
        }
    }
}

impl From<SourceFault> for Refusal {
    ghost from_gives = { λ fault given. given ≡ of_source fault };

    fn from(fault: SourceFault) -> Refusal {
        Refusal::Replay(fault.into())
    }
}

impl From<ScenarioFault> for Refusal {
    ghost from_gives = { λ fault given. given ≡ of_scenario fault };

    fn from(fault: ScenarioFault) -> Refusal {
        match fault {
            ScenarioFault::NoMemory => NoMemory.into(),
            malformed => Refusal::Scenario(malformed),
        }
    }
}

impl From<RunFault> for Refusal {
    ghost from_gives = { λ fault given. given ≡ of_run fault };

    fn from(fault: RunFault) -> Refusal {
        match fault {
            RunFault::NoMemory => NoMemory.into(),
            RunFault::JournalFull => Refusal::JournalFull,
        }
    }
}

impl From<NoMemory> for Refusal {
    ghost from_gives = { λ _ given. given ≡ refusal.Replay replay.NoMemory };

    fn from(_: NoMemory) -> Refusal {
        Refusal::Replay(ReplayFault::NoMemory)
    }
}

impl From<WriteFailed> for Refusal {
    ghost from_gives = { λ _ given. given ≡ refusal.Replay replay.Write };

    fn from(_: WriteFailed) -> Refusal {
        Refusal::Replay(ReplayFault::Write)
    }
}
