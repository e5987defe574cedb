//! Why a hub was not opened.

ghost use Rattle.std.specs.Prelude.{◌≡◌};
ghost use Rattle.hub_core.specs.HubView.{open_fault_number};
ghost use Rattle.hub_core.specs.declared.opening.OpenFault.TheVariants as open_fault;

use hub_base::NoMemory;
use std::alloc::AllocError;
use thiserror::Error;

/// Why a hub was not opened; tested in this order. Nothing is kept.
#[derive(Clone, Copy, Debug, PartialEq, Eq, Error)]
pub enum OpenFault {
    /// 1: the number of processes is not 1 to `MOST_PROCS`.
    #[error("the number of processes is not 1 to 64")]
    BadProcs,
    /// 2: the limit is not 1 to `MOST_STEPS`.
    #[error("the limit is not 1 to 1000000")]
    BadLimit,
    /// 3: a growth was refused.
    #[error("out of memory")]
    NoMemory,
}

impl OpenFault {
    /// The fault's number, 1 to 3.
    pub fn number(self) -> u8
        ensures { result ≡ open_fault_number self }
    {
        self as u8 + 1
    }
}

impl From<NoMemory> for OpenFault {
    ghost from_gives = { λ _ fault. fault ≡ open_fault.NoMemory };

    fn from(_: NoMemory) -> OpenFault {
        OpenFault::NoMemory
    }
}

impl From<AllocError> for OpenFault {
    ghost from_gives = { λ _ fault. fault ≡ open_fault.NoMemory };

    fn from(_: AllocError) -> OpenFault {
        OpenFault::NoMemory
    }
}
