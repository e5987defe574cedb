//! Why a run has no report.

ghost use Rattle.std.specs.Prelude.{◌≡◌, ◌↔◌, ◌⊎◌, None, Some, Err, IsOk, IsErr};
ghost use Rattle.hub_base.specs.declared.fault.Fault.TheVariants as why;
ghost use Rattle.hub_runner.specs.declared.fault.RunFault.TheVariants as run;

use hub_base::{Fault, NoMemory};
use thiserror::Error;

/// Why a run has no report. Whatever the fault, every thread of the run has ended.
#[derive(Clone, Copy, Debug, PartialEq, Eq, Error)]
pub enum RunFault {
    /// 1: an allocation failed; or a thread could not be started, and then no script has made a step. It
    /// goes before `JournalFull` where both came.
    #[error("out of memory")]
    NoMemory,
    /// 2: the journal held as many steps as the scenario's limit, exits left aside, and a process asked
    /// for one more.
    #[error("journal full")]
    JournalFull,
}

impl From<Fault> for RunFault {
    ghost from_gives = { λ fault given. fault ≡ why.NoMemory ↔ given ≡ run.NoMemory };

    fn from(fault: Fault) -> RunFault {
        match fault {
            Fault::NoMemory => RunFault::NoMemory,
            // No other refusal comes: exits are made last, and a seat is of a process that is there.
            _ => RunFault::JournalFull,
        }
    }
}

impl From<NoMemory> for RunFault {
    ghost from_gives = { λ _ given. given ≡ run.NoMemory };

    fn from(_: NoMemory) -> RunFault {
        RunFault::NoMemory
    }
}

/// The fault of a run after the outcome of one more process.
pub fn with_outcome(before: Option<RunFault>, outcome: Result<(), Fault>) -> Option<RunFault>
    ensures none { result ≡ None → (before ≡ None) × IsOk outcome }
    ensures memory { (before ≡ Some run.NoMemory) ⊎ (outcome ≡ Err why.NoMemory)
        → result ≡ Some run.NoMemory }
    ensures only { result ≡ Some run.NoMemory
        → (before ≡ Some run.NoMemory) ⊎ (outcome ≡ Err why.NoMemory) }
    ensures full { result ≡ Some run.JournalFull → (before ≡ Some run.JournalFull) ⊎ IsErr outcome }
{
    match (before, outcome) {
        (before, Ok(())) => before,
        (Some(RunFault::NoMemory), Err(_)) => Some(RunFault::NoMemory),
        (_, Err(fault)) => Some(RunFault::from(fault)),
    }
}
