//! Why a view of a journal is not written whole.

ghost use Rattle.std.specs.Prelude.{◌≡◌};
ghost use Rattle.hub_replay.specs.declared.fault.ReplayFault.TheVariants as replay;
ghost use Rattle.hub_replay.specs.declared.view_fault.ViewFault.TheVariants as view;
ghost use Rattle.hub_replay.specs.ViewFaults.{replay_fault};

use crate::{ReplayFault, WriteFailed};
use hub_base::NoMemory;
use std::alloc::AllocError;
use thiserror::Error;

/// Why a view of a journal is not written whole. A beginning of it was.
#[derive(Clone, Copy, Debug, PartialEq, Eq, Error)]
pub enum ViewFault {
    /// A write failed, or took no byte of a piece that is not empty.
    #[error("write failed")]
    Write,
    /// A growth was refused.
    #[error("out of memory")]
    NoMemory,
}

impl From<WriteFailed> for ViewFault {
    ghost from_gives = { λ _ fault. fault ≡ view.Write };

    fn from(_: WriteFailed) -> ViewFault {
        ViewFault::Write
    }
}

impl From<NoMemory> for ViewFault {
    ghost from_gives = { λ _ fault. fault ≡ view.NoMemory };

    fn from(_: NoMemory) -> ViewFault {
        ViewFault::NoMemory
    }
}

impl From<AllocError> for ViewFault {
    ghost from_gives = { λ _ fault. fault ≡ view.NoMemory };

    fn from(_: AllocError) -> ViewFault {
        ViewFault::NoMemory
    }
}

/// As a replay tells it.
impl From<ViewFault> for ReplayFault {
    ghost from_gives = { λ fault given. given ≡ replay_fault fault };

    fn from(fault: ViewFault) -> ReplayFault {
        match fault {
            ViewFault::Write => ReplayFault::Write,
            ViewFault::NoMemory => ReplayFault::NoMemory,
        }
    }
}
