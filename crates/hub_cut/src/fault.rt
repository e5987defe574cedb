//! Why a text is not the next chapter of a chain.

ghost use Rattle.std.specs.Prelude.{◌≡◌, ◌+◌, ◌≤◌};
ghost use Rattle.hub_cut.specs.Faults.{fault_of_read, refused_at};
ghost use Rattle.hub_cut.specs.declared.fault.ChainFault.TheVariants as chain;

use hub_base::{Fault, MOST_BYTES, NoMemory, ReadFault, TextFault};
use std::alloc::AllocError;

/// Why a text is not the next chapter of a chain. Lines are counted from 1. If several apply, the first of these tells.
#[derive(Clone, Copy, Debug, PartialEq, Eq)]
pub enum ChainFault {
    /// The text is malformed: its first faulty line.
    Text(TextFault),
    /// The first line says another edition than that of the chapter before.
    OtherEdition,
    /// The second line says another number of processes.
    OtherProcs,
    /// The first line that is not that of the checkpoint, with which the chapter must begin; or the text ends before it.
    OtherCheckpoint {
        /// The number of the line.
        line: u32,
    },
    /// The first line whose entry is not admitted.
    NotAdmitted {
        /// The number of the line.
        line: u32,
        /// `NoProcess`, `Gone` or `Busy`.
        fault: Fault,
    },
    /// A growth was refused.
    NoMemory,
}

impl From<ReadFault> for ChainFault {
    ghost from_gives = { λ read fault. fault ≡ fault_of_read read };

    fn from(fault: ReadFault) -> ChainFault {
        match fault {
            ReadFault::Text(fault) => ChainFault::Text(fault),
            ReadFault::NoMemory => ChainFault::NoMemory,
        }
    }
}

impl From<AllocError> for ChainFault {
    ghost from_gives = { λ _ fault. fault ≡ chain.NoMemory };

    fn from(_: AllocError) -> ChainFault {
        ChainFault::NoMemory
    }
}

/// The line of the entry at this place.
pub(crate) fn line_of(place: usize) -> u32
    requires { place ≤ MOST_BYTES }
    ensures { result ≡ place + 3 }
{
    place as u32 + 3
}

/// The fault of a hub that refused the entry at this place.
pub(crate) fn refused_at(place: usize, fault: Fault) -> ChainFault
    requires { place ≤ MOST_BYTES }
    ensures { result ≡ refused_at place fault }
{
    match fault {
        Fault::NoMemory => ChainFault::NoMemory,
        fault => ChainFault::NotAdmitted {
            line: line_of(place),
            fault,
        },
    }
}
